// The numbers of inputs and registers.
ghost use Rattle.std.specs.Prelude.{◌≡◌, ◌+◌, ◌<◌, IfOk, OnOk, Some, None, if◌then◌else◌, map, length};
ghost use Rattle.std.specs.List.{filter_map};
ghost use Rattle.vlog_text.specs.declared.raw.RawName.{RawName as Named};
ghost use Rattle.vlog_text.specs.Standing.{is_reg};
ghost use Rattle.vlog_names.specs.Names.{kinds_in, IsFirsts};
ghost use Rattle.vlog_names.specs.inner.Steps.{Learns};
ghost use Rattle.vlog_names.specs.inner.Steps.{plain_name, reg_name};

use crate::firsts::Firsts;
use crate::kinds::{KindTable, is_plain};
use pbs_base::Memory;
use std::alloc::Global;
use vlog_text::{DeclKind, RawDecl, RawName};

/// The most registers. A netlist that would pass it answers `Memory`.
const MOST: usize = 4_294_967_294;

// Gives the name the next number, if it is one of those that are numbered.
fn number_if(
    is_one: bool,
    firsts: &mut Firsts,
    alloc: Global,
    name: &RawName,
    count: usize,
) -> Result<usize, Memory>
    requires { count < 18446744073709551615 }
    ensures learns { OnOk result (Learns firsts.old firsts.new (if is_one then Some name.now else None) count) }
    ensures count { IfOk result (λ n. n ≡ count + (if is_one then 1 else 0)) }
{
    if !is_one {
        return Ok(count);
    }
    firsts.enter(alloc, name, count)?;
    Ok(count + 1)
}

/// The number of each input other than `clk` and `rst`.
pub(crate) fn number_inputs(
    alloc: Global,
    kinds: &KindTable,
    ports: &[RawName],
) -> Result<Firsts, Memory>
    ensures { IfOk result (λ firsts. IsFirsts
        (map (λ (n : Named). Some n) (filter_map (plain_name (kinds_in kinds.now)) ports.now)) firsts) }
{
    let mut firsts = Firsts::new(alloc);
    let mut count = 0;
    for name in ports {
        let is_one = is_plain(kinds.of(&name.word), &name.word);
        count = number_if(is_one, &mut firsts, alloc, name, count)?;
    }
    Ok(firsts)
}

fn is_reg(kind: DeclKind) -> bool
    ensures { result ≡ is_reg kind }
{
    matches!(kind, DeclKind::Reg)
}

/// The number of each register.
pub(crate) fn number_registers(alloc: Global, decls: &[RawDecl]) -> Result<Firsts, Memory>
    ensures firsts { IfOk result (λ firsts. IsFirsts
        (map (λ (n : Named). Some n) (filter_map reg_name decls.now)) firsts) }
    ensures few { IfOk result (λ firsts. length (filter_map reg_name decls.now) < 4294967295) }
{
    let mut firsts = Firsts::new(alloc);
    let mut count = 0;
    for decl in decls {
        count = number_if(is_reg(decl.kind), &mut firsts, alloc, &decl.name, count)?;
    }
    if count > MOST {
        return Err(Memory);
    }
    Ok(firsts)
}
