// The tokens of a whole text.
ghost use Rattle.std.specs.Prelude.{◌≡◌, IfOk, IfErr};
ghost use Rattle.vlog_text.specs.declared.fail.VlogFail.TheVariants as answers;
ghost use Rattle.vlog_text.specs.Refusing.{refusal};
ghost use Rattle.vlog_parse.specs.inner.Machine as machine;
ghost use Rattle.vlog_parse.specs.inner.Machine.{IsFound};
ghost use Rattle.vlog_parse.specs.Parsed.{IsReadAs, StopsReading};

use crate::state::{Fixed, Found, State};
use crate::step::step;
use pbs_base::{Listed, Refusal, Span, Subject};
use std::alloc::Global;
use vlog_text::{RawNetlist, Token, VlogFail};

// Why a text is refused by this rule.
fn refused(rule: u8, span: Span) -> VlogFail
    ensures { result ≡ answers.Refused (refusal rule span) }
{
    VlogFail::Refused(Refusal {
        subject: Subject::Netlist,
        rule,
        span,
    })
}

fn nothing(alloc: Global) -> Found
    ensures { result ≡ machine.nothing }
{
    Found {
        title: None,
        ports: Listed::new(alloc),
        decls: Listed::new(alloc),
        gates: Listed::new(alloc),
        regs: Listed::new(alloc),
    }
}

fn is_whole(state: State) -> bool
    ensures { result ≡ machine.is_whole state }
{
    match state {
        State::Whole => true,
        _ => false,
    }
}

// The netlist that was found.
fn netlist_of(found: Found) -> Result<RawNetlist, VlogFail>
    ensures ok { IfOk result (λ raw. IsFound found raw) }
    ensures err { IfErr result (λ e. e ≡ answers.Memory) }
{
    let Found {
        title,
        ports,
        decls,
        gates,
        regs,
    } = found;
    match title {
        Some(name) => Ok(RawNetlist {
            name,
            ports,
            decls,
            gates,
            regs,
        }),
        None => Err(VlogFail::Memory),
    }
}

/// The netlist of names that the tokens of a text are read as, or where they break rule 3 first. The text has `end`
/// bytes.
pub fn read_tokens(
    alloc: Global,
    bytes: &[u8],
    tokens: &[Token],
    end: u32,
) -> Result<RawNetlist, VlogFail>
    ensures ok { IfOk result (λ raw. IsReadAs bytes.now tokens.now raw) }
    ensures err { IfErr result (λ e. StopsReading end tokens.now e) }
{
    let mut found = nothing(alloc);
    let mut state = State::OfFixed(Fixed::WantsModule);
    for token in tokens {
        match step(alloc, bytes, state, *token, &mut found)? {
            Some(next) => state = next,
            None => return Err(refused(3, token.span)),
        }
    }
    if is_whole(state) {
        netlist_of(found)
    } else {
        Err(refused(3, Span { start: end, end }))
    }
}
