// What is read from a request sheet. How its bytes are laid out, and when a sheet is bad, is in specs/.
#![tactic(auto)]

// What a sheet says: a table of so many words, of requests or of shapes, and a space. A bad sheet says nothing.
#[derive(Clone, Copy)]
pub enum Sheet {
    Requests(usize, u32),
    Shapes(usize, u32),
}
