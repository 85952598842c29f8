// An array of one value, again and again. Where a long array is written out the check looks at each of its entries, so that it is
// written out in one place.
#![tactic(auto)]

ghost use Rattle.std.specs.Prelude.{◌≡◌, replicate};

// So many entries, all of that value.
pub fn filled<T: Copy, const N: usize>(value: T) -> [T; N]
    ensures { result ≡ replicate N value }
{
    [value; N]
}
