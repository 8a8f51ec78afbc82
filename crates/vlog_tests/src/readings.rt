// What is read, told by what is written of it.
use crate::texts::{Pair, joined, written};
use std::alloc::Global;
use std::test::Fail;

// A module with inputs a, b and c and an output y, up to its gates.
const FRONT: &[u8] = b"module m (clk, rst, a, b, c, y); input clk, rst, a, b, c; output y; ";

// The same as it is written.
const WRITTEN_FRONT: &[u8] =
    b"module pbs (clk, rst, a, b, c, y);\ninput clk;\ninput rst;\ninput a;\ninput b;\ninput c;\noutput y;\n";

// Each kind of gate, with and without the name of the instance.
const GATES: &[Pair] = &[
    (b"buf (y, a);", b"buf (y, a);\n"),
    (b"buf b1 (y, 1'b1);", b"buf (y, 1'b1);\n"),
    (b"not (y, b);", b"not (y, b);\n"),
    (b"not _$ (y, b);", b"not (y, b);\n"),
    (b"and (y, a, b);", b"and (y, a, b);\n"),
    (b"and g1 (y, c);", b"and (y, c);\n"),
    (b"or (y, a, b, c, rst);", b"or (y, a, b, c, rst);\n"),
    (b"or y (y, b, a);", b"or (y, b, a);\n"),
    (b"nand (y, a, a);", b"nand (y, a, a);\n"),
    (b"nand clk (y, c, 1'b0);", b"nand (y, c, 1'b0);\n"),
    (b"nor (y, 1'b0, rst, 1'b1);", b"nor (y, 1'b0, rst, 1'b1);\n"),
    (b"nor a (y, b);", b"nor (y, b);\n"),
    (b"xor (y, c, b, a);", b"xor (y, c, b, a);\n"),
    (b"xor m (y, a);", b"xor (y, a);\n"),
    (b"xnor (y, a, b, c);", b"xnor (y, a, b, c);\n"),
    (b"xnor integer (y, rst, rst);", b"xnor (y, rst, rst);\n"),
];

// The gates of expressions.
const EXPRESSIONS: &[Pair] = &[
    (b"assign y = a;", b"buf (y, a);\n"),
    (b"assign y = 1'b0;", b"buf (y, 1'b0);\n"),
    (b"assign y = ((rst));", b"buf (y, rst);\n"),
    (b"assign y = ~a;", b"not (y, a);\n"),
    (b"assign y = ~(a);", b"not (y, a);\n"),
    (
        b"assign y = ~~a;",
        b"wire w0;\nnot (w0, a);\nnot (y, w0);\n",
    ),
    (b"assign y = a & b & c;", b"and (y, a, b, c);\n"),
    (b"assign y = a | b | c;", b"or (y, a, b, c);\n"),
    (b"assign y = a ^ b ^ 1'b1;", b"xor (y, a, b, 1'b1);\n"),
    (b"assign y = ((a & b));", b"and (y, a, b);\n"),
    (
        b"assign y = (a & b) & c;",
        b"wire w0;\nand (w0, a, b);\nand (y, w0, c);\n",
    ),
    (
        b"assign y = a | (b | c);",
        b"wire w0;\nor (w0, b, c);\nor (y, a, w0);\n",
    ),
    (
        b"assign y = a | b & c;",
        b"wire w0;\nand (w0, b, c);\nor (y, a, w0);\n",
    ),
    (
        b"assign y = a & b | c;",
        b"wire w0;\nand (w0, a, b);\nor (y, w0, c);\n",
    ),
    (
        b"assign y = (a | b) & c;",
        b"wire w0;\nor (w0, a, b);\nand (y, w0, c);\n",
    ),
    (
        b"assign y = a ^ b & c;",
        b"wire w0;\nand (w0, b, c);\nxor (y, a, w0);\n",
    ),
    (
        b"assign y = a | b ^ c;",
        b"wire w0;\nxor (w0, b, c);\nor (y, a, w0);\n",
    ),
    (
        b"assign y = a ^ b | c;",
        b"wire w0;\nxor (w0, a, b);\nor (y, w0, c);\n",
    ),
    (
        b"assign y = ~a & b;",
        b"wire w0;\nnot (w0, a);\nand (y, w0, b);\n",
    ),
    (
        b"assign y = ~(a & b);",
        b"wire w0;\nand (w0, a, b);\nnot (y, w0);\n",
    ),
    (
        b"assign y = a | b ^ c & ~a;",
        b"wire w0;\nwire w1;\nwire w2;\nnot (w0, a);\nand (w1, c, w0);\nxor (w2, b, w1);\nor (y, a, w2);\n",
    ),
    (
        b"assign y = ~a & b ^ c | a;",
        b"wire w0;\nwire w1;\nwire w2;\nnot (w0, a);\nand (w1, w0, b);\nxor (w2, w1, c);\nor (y, w2, a);\n",
    ),
    (
        b"assign y = ~(a | b) & (b ^ 1'b0);",
        b"wire w0;\nwire w1;\nwire w2;\nor (w0, a, b);\nnot (w1, w0);\nxor (w2, b, 1'b0);\nand (y, w1, w2);\n",
    ),
    (
        b"assign y = ~a | ~b | ~c;",
        b"wire w0;\nwire w1;\nwire w2;\nnot (w0, a);\nnot (w1, b);\nnot (w2, c);\nor (y, w0, w1, w2);\n",
    ),
];

// The order of gates, outputs as pins, and registers.
const ORDERS: &[Pair] = &[
    (
        b"wire v, w; buf (y, v); not (v, w); and (w, a, b);",
        b"wire w0;\nwire w1;\nand (w0, a, b);\nnot (w1, w0);\nbuf (y, w1);\n",
    ),
    (
        b"wire v, w; buf (y, v); not (v, a); and (w, a, b);",
        b"wire w0;\nwire w2;\nnot (w0, a);\nbuf (y, w0);\nand (w2, a, b);\n",
    ),
    (
        b"wire w; buf (y, a); not (w, y);",
        b"wire w1;\nbuf (y, a);\nnot (w1, y);\n",
    ),
    (
        b"not (w, y); wire w; buf (y, a);",
        b"wire w1;\nbuf (y, a);\nnot (w1, y);\n",
    ),
    (
        b"assign y = w & ~a; wire w; assign w = b;",
        b"wire w0;\nwire w1;\nnot (w0, a);\nbuf (w1, b);\nand (y, w1, w0);\n",
    ),
    (
        b"wire v, w; assign v = w | a; assign y = v ^ w; assign w = ~b & c;",
        b"wire w0;\nwire w1;\nwire w2;\nnot (w0, b);\nand (w1, w0, c);\nor (w2, w1, a);\nxor (y, w2, w1);\n",
    ),
    (
        b"reg q; always @(posedge clk) q <= a; buf (y, q);",
        b"reg q0;\nbuf (y, q0);\nalways @(posedge clk) q0 <= a;\n",
    ),
    (
        b"always @(posedge clk) q <= y; not (y, q); reg q;",
        b"reg q0;\nnot (y, q0);\nalways @(posedge clk) q0 <= y;\n",
    ),
    (
        b"reg p, q; always @(posedge clk) q <= p; always @(posedge clk) p <= rst; assign y = p & q;",
        b"reg q0;\nreg q1;\nand (y, q0, q1);\nalways @(posedge clk) q0 <= rst;\nalways @(posedge clk) q1 <= q0;\n",
    ),
    (
        b"reg p, q, w; always @(posedge clk) p <= p; always @(posedge clk) w <= 1'b1; always @(posedge clk) q <= \
      1'b0; buf (y, a);",
        b"reg q0;\nreg q1;\nreg q2;\nbuf (y, a);\nalways @(posedge clk) q0 <= q0;\nalways @(posedge clk) q1 <= \
      1'b0;\nalways @(posedge clk) q2 <= 1'b1;\n",
    ),
    (
        b"reg q1; wire q0; buf (q0, b); always @(posedge clk) q1 <= q0; buf (y, q1);",
        b"reg q0;\nwire w0;\nbuf (w0, b);\nbuf (y, q0);\nalways @(posedge clk) q0 <= w0;\n",
    ),
];

// Port lists, and space and comments between all tokens.
const WHOLES: &[Pair] = &[
    (
        b"module m (clk, rst); input clk, rst; endmodule",
        b"module pbs (clk, rst);\ninput clk;\ninput rst;\nendmodule\n",
    ),
    (
        b"module m (rst, clk); input rst; input clk; endmodule // no newline",
        b"module pbs (clk, rst);\ninput clk;\ninput rst;\nendmodule\n",
    ),
    (
        b"module m (z, b, rst, y, a, clk); output y, z; input a, clk, b, rst; buf (y, a); buf (z, b); endmodule",
        b"module pbs (clk, rst, b, a, z, y);\ninput clk;\ninput rst;\ninput b;\ninput a;\noutput z;\noutput \
      y;\nbuf (y, a);\nbuf (z, b);\nendmodule\n",
    ),
    (
        b"module y (clk, rst, y); input clk; output y; not (y, rst); input rst; endmodule",
        b"module pbs (clk, rst, y);\ninput clk;\ninput rst;\noutput y;\nnot (y, rst);\nendmodule\n",
    ),
    (
        b"module m (clk, rst, a_$0, Q, q); input clk, rst, a_$0; output Q, q; buf (q, Q); buf (Q, a_$0); endmodule",
        b"module pbs (clk, rst, a_$0, Q, q);\ninput clk;\ninput rst;\ninput a_$0;\noutput Q;\noutput q;\nbuf (Q, \
      a_$0);\nbuf (q, Q);\nendmodule\n",
    ),
    (
        b"module m(clk,rst,a,y);input clk,rst,a;output y;wire w;reg q;nand n(w,a,1'b1);assign \
      y=~(w|q)^a&rst;always@(posedge clk)q<=w;endmodule",
        b"module pbs (clk, rst, a, y);\ninput clk;\ninput rst;\ninput a;\noutput y;\nreg q0;\nwire w0;\nwire \
      w1;\nwire w2;\nwire w3;\nnand (w0, a, 1'b1);\nor (w1, w0, q0);\nnot (w2, w1);\nand (w3, a, rst);\nxor \
      (y, w2, w3);\nalways @(posedge clk) q0 <= w0;\nendmodule\n",
    ),
    (
        b"\x0cmodule/**/m//\n(\tclk\r\n,/* * / */rst ,\x0ca/**/,//\ny\t)\r\n;/* * / */input \
      clk\x0c,/**/rst//\n,\ta\r\n;/* * / */output y\x0c;/**/wire//\nw\t;\r\nreg/* * / */q \
      ;\x0cnand/**/n//\n(\tw\r\n,/* * / */a ,\x0c1'b1/**/)//\n;\tassign\r\ny/* * / */= \
      ~\x0c(/**/w//\n|\tq\r\n)/* * / */^ a\x0c&/**/rst//\n;\talways\r\n@/* * / */( \
      posedge\x0cclk/**/)//\nq\t<=\r\nw/* * / */; endmodule",
        b"module pbs (clk, rst, a, y);\ninput clk;\ninput rst;\ninput a;\noutput y;\nreg q0;\nwire w0;\nwire \
      w1;\nwire w2;\nwire w3;\nnand (w0, a, 1'b1);\nor (w1, w0, q0);\nnot (w2, w1);\nand (w3, a, rst);\nxor \
      (y, w2, w3);\nalways @(posedge clk) q0 <= w0;\nendmodule\n",
    ),
    (
        b"/*/ */module/*/ */m/*/ */(/*/ */clk/*/ */,/*/ */rst/*/ */,/*/ */a/*/ */,/*/ */y/*/ */)/*/ */;/*/ \
      */input/*/ */clk/*/ */,/*/ */rst/*/ */,/*/ */a/*/ */;/*/ */output/*/ */y/*/ */;/*/ */wire/*/ */w/*/ \
      */;/*/ */reg/*/ */q/*/ */;/*/ */nand/*/ */n/*/ */(/*/ */w/*/ */,/*/ */a/*/ */,/*/ */1'b1/*/ */)/*/ \
      */;/*/ */assign/*/ */y/*/ */=/*/ */~/*/ */(/*/ */w/*/ */|/*/ */q/*/ */)/*/ */^/*/ */a/*/ */&/*/ \
      */rst/*/ */;/*/ */always/*/ */@/*/ */(/*/ */posedge/*/ */clk/*/ */)/*/ */q/*/ */<=/*/ */w/*/ */;/*/ \
      */endmodule/* end **/",
        b"module pbs (clk, rst, a, y);\ninput clk;\ninput rst;\ninput a;\noutput y;\nreg q0;\nwire w0;\nwire \
      w1;\nwire w2;\nwire w3;\nnand (w0, a, 1'b1);\nor (w1, w0, q0);\nnot (w2, w1);\nand (w3, a, rst);\nxor \
      (y, w2, w3);\nalways @(posedge clk) q0 <= w0;\nendmodule\n",
    ),
];

// The first pair whose items aren't written as they should be, or whose written text is read as another netlist.
fn first_wrong_items(alloc: Global, pairs: &[Pair]) -> Result<Option<usize>, Fail> {
    for (n, (items, lines)) in pairs.iter().enumerate() {
        let text = joined(alloc, &[(FRONT, 1), (*items, 1), (b" endmodule", 1)])?;
        let wanted = joined(
            alloc,
            &[(WRITTEN_FRONT, 1), (*lines, 1), (b"endmodule\n", 1)],
        )?;
        let found = written(alloc, text.as_slice())?;
        let again = written(alloc, found.as_slice())?;
        if found.as_slice() != wanted.as_slice() || again.as_slice() != wanted.as_slice() {
            return Ok(Some(n));
        }
    }
    Ok(None)
}

// The same for whole texts.
fn first_wrong_text(alloc: Global, pairs: &[Pair]) -> Result<Option<usize>, Fail> {
    for (n, (text, wanted)) in pairs.iter().enumerate() {
        let found = written(alloc, *text)?;
        let again = written(alloc, found.as_slice())?;
        if found.as_slice() != *wanted || again.as_slice() != *wanted {
            return Ok(Some(n));
        }
    }
    Ok(None)
}

#[test]
fn reads_each_form(rt: HostRuntime) -> Result<(), Fail> {
    assert_eq!(rt; first_wrong_items(rt.alloc(), GATES)?, None);
    assert_eq!(rt; first_wrong_items(rt.alloc(), EXPRESSIONS)?, None);
    assert_eq!(rt; first_wrong_items(rt.alloc(), ORDERS)?, None);
    assert_eq!(rt; first_wrong_text(rt.alloc(), WHOLES)?, None);
    Ok(())
}
