// Prints the ledger after document 01's first keep: 10 bytes at alignment 8, from an arena of 2,048 bytes at start 1003, recorded as kind 0.
#![tactic(auto)]

use arena_sections::Sections;
use ledger_text::GREATEST_LEDGER_TEXT;
use recording_rule::Ledger;
use std::io;

// Writes the ledger's text.
fn print(rt: &impl Print, ledger: Ledger) -> io::Result<()> {
    let mut text = arrays::filled::<u8, GREATEST_LEDGER_TEXT>(0);
    let reply = ledger_text::write_ledger(ledger, &mut text);
    rt.write_all(text_pieces::told(reply, &text))
}

fn main(rt: HostRuntime) -> io::Result<()> {
    let opened = Sections::open(1003, 2048).sections;
    let recording = arena_recording::allocate_persistent(
        opened,
        ledger_entries::empty_ledger(),
        Ledger::TFLITE_EVAL_TENSOR_DATA,
        10,
        8,
    );
    print(&rt, recording.ledger)
}
