// A text with each form of item.
use net_core::GateKind;
use std::alloc::Global;
use std::test::Fail;
use vlog_read::parse_netlist;
use vlog_text::{DeclKind, RawGate, RawName, RawNetlist, RawPin, Target};

const TEXT: &[u8] = b"// each form
module top(clk, rst, a, y, z);
input clk, rst, a; output y, z; wire w; reg q;
and(w, a, 1'b0, b); xnor n1 (x, a); not (u, a); /* of
one pin */ buf clk (v, 1'b1);
assign y = a & ~b | c ^ (d & e) ^ 1'b1;
assign z = (a);
always @(posedge clk) q <= w;
endmodule
";

const LISTS: &[u8] = b"top: clk rst a y z
input clk input rst input a output y output z wire w reg q
and w a 0 b; xnor x a; not u a; buf v 1;
not - b; and - a #4; and - d e; xor - c #6 1; or y #5 #7; buf z a;
q w";

fn put(out: &mut Vec<u8>, bytes: &[u8]) -> Result<(), Fail> {
    out.extend_from_slice(bytes)?;
    Ok(())
}

fn kind_word(kind: GateKind) -> &'static [u8] {
    match kind {
        GateKind::Buf => b"buf ",
        GateKind::Not => b"not ",
        GateKind::And => b"and ",
        GateKind::Or => b"or ",
        GateKind::Nand => b"nand ",
        GateKind::Nor => b"nor ",
        GateKind::Xor => b"xor ",
        GateKind::Xnor => b"xnor ",
    }
}

fn decl_word(kind: DeclKind) -> &'static [u8] {
    match kind {
        DeclKind::Input => b"input ",
        DeclKind::Output => b"output ",
        DeclKind::Wire => b"wire ",
        DeclKind::Reg => b"reg ",
    }
}

// The name is where its span says.
fn put_name(out: &mut Vec<u8>, name: &RawName, text: &[u8]) -> Result<(), Fail> {
    let start = (name.span.start as usize).min(text.len());
    let rest = text.split_at(start).1;
    if rest.starts_with(name.word.bytes()) {
        put(out, name.word.bytes())
    } else {
        put(out, b"?")
    }
}

fn put_pin(out: &mut Vec<u8>, pin: &RawPin, text: &[u8]) -> Result<(), Fail> {
    match pin {
        RawPin::Const(false) => put(out, b"0"),
        RawPin::Const(true) => put(out, b"1"),
        RawPin::Name(name) => put_name(out, name, text),
        RawPin::Prior(n) => {
            let digit = b'0' + (*n % 10) as u8;
            put(out, b"#")?;
            put(out, &[digit])
        }
    }
}

fn put_gate(out: &mut Vec<u8>, gate: &RawGate, text: &[u8]) -> Result<(), Fail> {
    put(out, kind_word(gate.kind))?;
    match &gate.target {
        Target::Name(name) => put_name(out, name, text)?,
        Target::Inner => put(out, b"-")?,
    }
    for pin in gate.pins.as_slice() {
        put(out, b" ")?;
        put_pin(out, pin, text)?;
    }
    put(out, b";")
}

fn put_front(out: &mut Vec<u8>, raw: &RawNetlist, text: &[u8]) -> Result<(), Fail> {
    put_name(out, &raw.name, text)?;
    put(out, b":")?;
    for port in raw.ports.as_slice() {
        put(out, b" ")?;
        put_name(out, port, text)?;
    }
    Ok(())
}

fn put_decls(out: &mut Vec<u8>, raw: &RawNetlist, text: &[u8]) -> Result<(), Fail> {
    for decl in raw.decls.as_slice() {
        put(out, b" ")?;
        put(out, decl_word(decl.kind))?;
        put_name(out, &decl.name, text)?;
    }
    Ok(())
}

fn put_regs(out: &mut Vec<u8>, raw: &RawNetlist, text: &[u8]) -> Result<(), Fail> {
    for reg in raw.regs.as_slice() {
        put(out, b" ")?;
        put_name(out, &reg.target, text)?;
        put(out, b" ")?;
        put_pin(out, &reg.wire, text)?;
    }
    Ok(())
}

fn shown(alloc: Global, raw: &RawNetlist, text: &[u8]) -> Result<Vec<u8>, Fail> {
    let mut out = Vec::new(alloc);
    put_front(&mut out, raw, text)?;
    put_decls(&mut out, raw, text)?;
    for gate in raw.gates.as_slice() {
        put(&mut out, b" ")?;
        put_gate(&mut out, gate, text)?;
    }
    put_regs(&mut out, raw, text)?;
    Ok(out)
}

// The text with a space in place of each newline.
fn in_one_line(alloc: Global, text: &[u8]) -> Result<Vec<u8>, Fail> {
    let mut out = Vec::new(alloc);
    for b in text {
        out.push(if *b == b'\n' { b' ' } else { *b })?;
    }
    Ok(out)
}

#[test]
fn parses_each_form(rt: HostRuntime) -> Result<(), Fail> {
    let alloc = rt.alloc();
    let raw = parse_netlist(alloc, TEXT).ok().ok_or("refused")?;
    let lists = shown(alloc, &raw, TEXT)?;
    let wanted = in_one_line(alloc, LISTS)?;
    assert_eq!(rt; lists.as_slice(), wanted.as_slice());
    Ok(())
}
