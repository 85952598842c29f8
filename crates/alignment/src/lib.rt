// Rounding to a grid or an alignment, the bytes lost before the first multiple, and the alignments that a grid allows. Rounding up is one function, for
// whoever rounds. All is total: any grid, any number; no number is a multiple of a grid of 0 but 0. Rounding to 16, the grid of every plan and the base
// alignment of an arena, goes by bits, in at most two operations: 15 is all the bits below 16. Only another grid takes a division.
#![tactic(auto)]

ghost use Rattle.std.specs.Prelude.{◌≡◌};
ghost use Rattle.alignment.specs.Rounding.{rounded_up, rounded_down};
ghost use Rattle.alignment.specs.Alignments.{loss, allowed};

// The least multiple of the grid that is at least the number.
pub fn round_up(grid: u32, number: u32) -> u64
    ensures { result ≡ rounded_up grid number }
{
    match grid {
        16 => (number as u64 + 15) & !15,
        0 => 0u64,
        _ => (number as u64).next_multiple_of(grid as u64),
    }
}

// The greatest multiple of the grid that is at most the number.
pub fn round_down(grid: u32, number: u32) -> u32
    ensures { result ≡ rounded_down grid number }
{
    match grid {
        16 => number & !15,
        0 => 0,
        _ => number / grid * grid,
    }
}

// The bytes before the first multiple of the grid, from a start on.
pub fn bytes_lost(grid: u32, start: u64) -> u32
    ensures { result ≡ loss grid start }
{
    match grid {
        16 => (start.wrapping_neg() & 15) as u32,
        0 => 0u32,
        _ => (grid - (start % grid as u64) as u32) % grid,
    }
}

// Whether the alignment is a power of two up to the grid.
pub fn is_allowed(grid: u32, alignment: u32) -> bool
    ensures { result ≡ allowed grid alignment }
{
    alignment.is_power_of_two() & (alignment <= grid)
}
