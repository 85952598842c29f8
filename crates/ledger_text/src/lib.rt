// The text of a ledger (document 02, order 4), written into lent bytes: a line `code requested used count` for each kind, by rising code.
#![tactic(auto)]

ghost use Rattle.std.specs.Prelude.{◌+◌, ◌<◌, ◌≤◌, ◌≡◌, length};
ghost use Rattle.ledger_text.specs.LedgerText.{record_line, ledger_text, greatest_line, greatest_ledger_text};
ghost use Rattle.recording_rule.specs.Ledger.{kind_count, of_kind};
ghost use Rattle.text_pieces.specs.Put.{Put};
ghost use Rattle.text_pieces.specs.Replied.{reply_with, left_with};

use recording_rule::Ledger;
use text_pieces::{put_number, put_text};

// Bytes enough for any ledger's text: a line has a code of one digit, three numbers of 32 bits with a blank before each, and its line feed.
pub const GREATEST_LEDGER_TEXT: usize = 210;

// Puts the line of a kind.
fn put_line(text: &mut [u8], at: usize, ledger: Ledger, code: u32) -> usize
    requires { (code < kind_count) × (at + greatest_line ≤ length text.old) }
    ensures line { Put text.old text.new at result (record_line code (of_kind ledger code)) }
    ensures short { result ≤ at + greatest_line }
{
    let recorded = ledger_entries::of_kind(ledger, code);
    let after_code = put_number(text, at, b"", code as u64);
    let after_requested = put_number(text, after_code, b" ", recorded.requested as u64);
    let after_used = put_number(text, after_requested, b" ", recorded.used as u64);
    let after_count = put_number(text, after_used, b" ", recorded.count as u64);
    put_text(text, after_count, b"\n")
}

// Puts the lines of all kinds at the start.
fn put_ledger(text: &mut [u8], ledger: Ledger) -> usize
    requires { greatest_ledger_text ≤ length text.old }
    ensures { Put text.old text.new 0 result (ledger_text ledger) }
{
    let mut next = 0;
    for code in 0..Ledger::KINDS {
        next = put_line(text, next, ledger, code);
    }
    next
}

// The ledger's text stands in the first bytes of `text`, so many as are told, and the rest stays. A `text` of fewer bytes than the longest has is left as it
// was, and none is told.
pub fn write_ledger(ledger: Ledger, text: &mut [u8]) -> Option<usize>
    ensures reply { result ≡ reply_with greatest_ledger_text (ledger_text ledger) (length text.old) }
    ensures text { text.new ≡ left_with greatest_ledger_text (ledger_text ledger) text.old }
{
    if text.len() < GREATEST_LEDGER_TEXT {
        return None;
    }
    Some(put_ledger(text, ledger))
}
