// A text up to the names that stand in it.
ghost use Rattle.std.specs.Prelude.{◌≡◌};
ghost use Rattle.vlog_text.specs.declared.fail.VlogFail.TheVariants as answers;
ghost use Rattle.vlog_text.specs.Refusing.{refusal};
ghost use Rattle.vlog_read.specs.Parsed.{Parses};

use pbs_base::{Refusal, Span, Subject};
use std::alloc::Global;
use vlog_lex::tokens_of;
use vlog_parse::laws::read_is_raw;
use vlog_parse::read_tokens;
use vlog_text::{RawNetlist, VlogFail};

/// How many bytes a text may have.
const MAX_BYTES: usize = 67_108_864;

fn too_long() -> VlogFail
    ensures { result ≡ answers.Refused (refusal 1 (record { start = 67108864; end = 67108865 })) }
{
    VlogFail::Refused(Refusal {
        subject: Subject::Netlist,
        rule: 1,
        span: Span {
            start: 67_108_864,
            end: 67_108_865,
        },
    })
}

/// The netlist of names that the text is, or the first broken rule of 1 to 3.
pub fn parse_netlist(alloc: Global, bytes: &[u8]) -> Result<RawNetlist, VlogFail>
    ensures { Parses bytes.now result }
{
    if bytes.len() > MAX_BYTES {
        return Err(too_long());
    }
    read_is_raw();
    let tokens = tokens_of(alloc, bytes)?;
    read_tokens(alloc, bytes, &tokens, bytes.len() as u32)
}
