// Gates that are enough for a circuit, and no others.
ghost use Rattle.std.specs.Prelude.{◌≡◌, ◌<◌, IfOk, length, map};
ghost use Rattle.net_tidy.specs.inner.Marks.{IsCut};
ghost use Rattle.net_tidy.specs.inner.Images.{image};
ghost use Rattle.net_tidy.specs.inner.Shrunk.{IsShrunk, output_wires};

use crate::fold::{Folded, fold, image};
use crate::mark::reached;
use crate::sweep::sweep;
use net_core::{Gates, Netlist, Output, Wire, Wires};
use pbs_base::Memory;
use std::alloc::Global;

/// Gates, and the wires that outputs and registers take.
#[derive(Drop)]
pub(crate) struct Shrunk {
    pub(crate) gates: Gates,
    pub(crate) shown: Wires,
    pub(crate) next: Wires,
}

fn output_wires(alloc: Global, outputs: &[Output]) -> Result<Wires, Memory>
    ensures { IfOk result (λ wires. wires ≡ output_wires outputs.now) }
{
    let mut wires = Wires::new(alloc);
    for output in outputs {
        wires.push(Wire::Gate(output.gate))?;
    }
    Ok(wires)
}

fn image_wires(alloc: Global, stands: &[Wire], wires: &[Wire]) -> Result<Wires, Memory>
    ensures { IfOk result (λ images. images ≡ map (image stands.now) wires.now) }
{
    let mut images = Wires::new(alloc);
    for wire in wires {
        images.push(image(stands, *wire))?;
    }
    Ok(images)
}

fn images_of(alloc: Global, stands: &Wires, wires: &Wires) -> Result<Wires, Memory>
    ensures { IfOk result (λ images. images ≡ map (image stands.now) wires.now) }
{
    image_wires(alloc, stands.as_slice(), wires.as_slice())
}

fn shown_wires(alloc: Global, net: &Netlist, stands: &Wires) -> Result<Wires, Memory>
    ensures { IfOk result (λ wires. wires ≡ map (image stands.now) (output_wires net.now.outputs)) }
{
    let wires = output_wires(alloc, net.outputs())?;
    image_wires(alloc, stands.as_slice(), wires.as_slice())
}

fn next_wires(alloc: Global, net: &Netlist, stands: &Wires) -> Result<Wires, Memory>
    ensures { IfOk result (λ wires. wires ≡ map (image stands.now) net.now.registers) }
{
    image_wires(alloc, stands.as_slice(), net.registers())
}

// The gates that the wires reach.
fn cut(alloc: Global, gates: &Gates, shown: &Wires, next: &Wires) -> Result<Shrunk, Memory>
    requires { length gates.now < 4294967295 }
    ensures { IfOk result (λ s. IsCut gates.now shown.now next.now s.gates s.shown s.next) }
{
    let marks = reached(alloc, gates.as_slice(), shown.as_slice(), next.as_slice())?;
    let Folded {
        gates: kept,
        stands: places,
    } = sweep(alloc, gates.as_slice(), &marks)?;
    let shown = images_of(alloc, &places, shown)?;
    let next = images_of(alloc, &places, next)?;
    Ok(Shrunk {
        gates: kept,
        shown,
        next,
    })
}

/// Gates that outputs and registers reach, with wires for both.
pub(crate) fn shrink(alloc: Global, net: &Netlist) -> Result<Shrunk, Memory>
    ensures { IfOk result (λ s. IsShrunk net.now s.gates s.shown s.next) }
{
    net.gates();
    let Folded { gates, stands } = fold(alloc, net)?;
    let shown = shown_wires(alloc, net, &stands)?;
    let next = next_wires(alloc, net, &stands)?;
    let shrunk = cut(alloc, &gates, &shown, &next)?;
    Ok(shrunk)
}
