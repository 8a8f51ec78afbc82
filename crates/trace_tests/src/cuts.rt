// Each cutting of a text gives the same.
ghost use Rattle.std.specs.Prelude.{◌≤◌, length};

use crate::names::named;
use crate::pieces::{Wanted, finds_each_way};
use pbs_base::Names;
use std::alloc::Global;
use std::test::Fail;
use trace_text::Row;

const TURNED: &[Row] = &[Row::Vector(1), Row::Reset, Row::Vector(2), Row::Vector(3)];

const RESETS: &[Row] = &[Row::Vector(2), Row::Reset, Row::Vector(1), Row::Reset];

const TWO: &[Row] = &[Row::Vector(2), Row::Vector(1)];

const THREE: &[Row] = &[Row::Vector(2), Row::Vector(3), Row::Vector(0)];

const TWO_RESETS: &[Row] = &[Row::Reset, Row::Reset];

// Texts for two ports, `a` and `b`.
const TWO_PORTS: &[(&'static [u8], Wanted<'static>)] = &[
    (b"trace b a\n01\nr\n10\n11", Wanted::Rows(TURNED)),
    (b"trace b a\n01\nr\n10\n11\n", Wanted::Rows(TURNED)),
    (b"trace a b\n01\nr\n10\nr", Wanted::Rows(RESETS)),
    (b"trace b a", Wanted::Rows(&[])),
    (b"trace b a\n", Wanted::Rows(&[])),
    (b"trace a b\n01\n10\n1r\n0", Wanted::RowsTo(TWO, 17, 18)),
    (b"trace a b\n01\n10\n\n00\n", Wanted::RowsTo(TWO, 16, 17)),
    (b"trace a b\n01\n11\n00\n1", Wanted::RowsTo(THREE, 20, 20)),
    (
        b"trace a b\nr\nr\nr0\n01\n",
        Wanted::RowsTo(TWO_RESETS, 15, 16),
    ),
    (b"trace a b\n110\n01\n10\n", Wanted::RowsTo(&[], 12, 13)),
    (b"", Wanted::NoHeader(0, 0)),
    (b"\ntrace a b\n01\n10\n00\n", Wanted::NoHeader(0, 0)),
    (b"trace a  b\n01\n10\n11\n", Wanted::NoHeader(0, 10)),
    (b"trace a b \n01\n10\n11\n", Wanted::NoHeader(0, 10)),
    (b"Trace a b\n01\n10\n11\nr", Wanted::NoHeader(0, 9)),
    (b"trace a c\n01\n10\n11\nr", Wanted::NoHeader(8, 9)),
    (b"trace b b\n01\n10\n11\nr", Wanted::NoHeader(8, 9)),
    (b"trace a\n0\n1\n0\n1\nr\n1\n", Wanted::NoHeader(7, 7)),
    (b"trace bb ab", Wanted::NoHeader(6, 8)),
];

const EMPTY_LINES: &[Row] = &[Row::Vector(0), Row::Reset, Row::Vector(0)];

// Without ports each empty line is a row.
const NO_PORTS: &[(&'static [u8], Wanted<'static>)] = &[
    (b"trace\n\nr\n\n", Wanted::Rows(EMPTY_LINES)),
    (b"trace\n", Wanted::Rows(&[])),
    (b"trace", Wanted::Rows(&[])),
    (b"trace\n\n0\n", Wanted::RowsTo(&[Row::Vector(0)], 7, 8)),
    (b"trace a\n", Wanted::NoHeader(6, 7)),
];

// The number of the first text in which something else is found.
fn first_other(
    alloc: Global,
    ports: &Names,
    cases: &[(&'static [u8], Wanted<'static>)],
) -> Result<Option<usize>, Fail>
    requires { length ports.now ≤ 64 }
{
    for (n, (text, wanted)) in cases.iter().enumerate() {
        if !finds_each_way(alloc, ports, *text, *wanted)? {
            return Ok(Some(n));
        }
    }
    Ok(None)
}

#[test]
fn cuttings(rt: HostRuntime) -> Result<(), Fail> {
    let alloc = rt.alloc();
    let ports = named(alloc, &[b"a", b"b"])?;
    assert!(rt; ports.len() == 2);
    assert_eq!(rt; first_other(alloc, &ports, TWO_PORTS)?, None);
    let none = named(alloc, &[])?;
    assert!(rt; none.len() == 0);
    assert_eq!(rt; first_other(alloc, &none, NO_PORTS)?, None);
    Ok(())
}
