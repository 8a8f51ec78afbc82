// The tokens of a text.
ghost use Rattle.std.specs.Prelude.{◌≡◌, ◌≤◌, ◌+◌, length, IfOk, IfErr, Ok};
ghost use Rattle.vlog_text.specs.Lexing as lexing;
ghost use Rattle.vlog_lex.specs.Lexed.{StopsLexing};

use crate::piece::first_piece;
use pbs_base::{Refusal, Span, Subject};
use std::alloc::Global;
use vlog_text::{Piece, Token, VlogFail};

// The span of so many bytes.
fn span_of(start: usize, len: usize) -> Span
    requires { start + len ≤ 67108864 }
    ensures { result ≡ record { start = start; end = start + len } }
{
    Span {
        start: start as u32,
        end: (start + len) as u32,
    }
}

/// The tokens of a text, or the refusal by rule 2.
pub fn tokens_of(alloc: Global, bytes: &[u8]) -> Result<Vec<Token>, VlogFail>
    requires { length bytes.now ≤ 67108864 }
    ensures ok { IfOk result (λ v. lexing.tokens bytes.now ≡ Ok v.items) }
    ensures err { IfErr result (λ e. StopsLexing bytes.now e) }
{
    let mut found = Vec::new(alloc);
    let mut at = 0;
    let mut rest = bytes;
    while !rest.is_empty() {
        match first_piece(rest) {
            Piece::Gap(n) => {
                rest = rest.split_at(n).1;
                at += n;
            }
            Piece::Whole(kind, n) => {
                let span = span_of(at, n);
                found.push(Token { kind, span })?;
                rest = rest.split_at(n).1;
                at += n;
            }
            Piece::Fault(n) => {
                return Err(VlogFail::Refused(Refusal {
                    subject: Subject::Netlist,
                    rule: 2,
                    span: span_of(at, n),
                }));
            }
        }
    }
    Ok(found)
}
