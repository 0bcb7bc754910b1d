//! Texts between apostrophes (ISO 7185, 6.1.7).

ghost use Rattle.std.specs.Prelude.{◌≡◌, ◌<◌, ◌≤◌, ◌^◌, drop, length};
ghost use Rattle.pc_lex.specs.Quoted as Quoted;

use crate::byte::{is_text_byte, stands_at};
use crate::error::LexError;
use crate::front::Front;
use crate::symbol::SymbolKind;

const APOSTROPHE: u8 = b'\'';

/// The text whose opening apostrophe stands at the beginning. A doubled apostrophe is one byte of it.
#[tactic(auto, using(crate::proofs::Scanning::text_doubled, crate::proofs::Scanning::text_ended, crate::proofs::Scanning::text_on, crate::proofs::Scanning::text_broken, crate::proofs::Scanning::text_open))]
pub fn read_text(text: &[u8]) -> Front
    requires { 1 ≤ length text.now }
    ensures { result ≡ Quoted.text_after 1 (drop 1 text.now) }
{
    let mut at = 1;
    while at < text.len() {
        let b = text[at];
        if b == APOSTROPHE {
            if !stands_at(text, at + 1, APOSTROPHE) {
                return ended(at);
            }
            at += 2;
        } else if is_text_byte(b) {
            at += 1;
        } else {
            return broken(at, b);
        }
    }
    Front::Fault(LexError::OpenString(1))
}

/// A text whose closing apostrophe stands after `at` bytes of it.
fn ended(at: usize) -> Front
    requires { at < 2 ^ 63 }
    ensures { result ≡ Quoted.ended at }
{
    if at == 1 {
        Front::Fault(LexError::EmptyString(1))
    } else {
        Front::Symbol(SymbolKind::Text, at + 1)
    }
}

/// A text with the byte `b`, which it may not have, after `at` bytes of it.
fn broken(at: usize, b: u8) -> Front
    requires { at < 2 ^ 63 }
    ensures { result ≡ Quoted.broken at b }
{
    if b == b'\n' {
        Front::Fault(LexError::OpenString(1))
    } else {
        Front::Fault(LexError::BadByte(at as u64 + 1))
    }
}
