//! Worked texts that several crates of tests share.
#![tactic(auto)]

/// The handshake: two requests and their answers, for ever.
pub const HANDSHAKE: &[u8] =
    b"spec 1; input req, ack; action start, done; main = ([~req]*, [req], {start}, [~ack]*, [ack], {done})*;";

/// The Verilog of the handshake. By the meaning of gates in docs/VERILOG.md it does in each row of each run what a machine
/// made by hand does, examples/handshake/hand.v: the gate's looks with other tools prove it for all inputs.
pub const HANDSHAKE_VERILOG: &[u8] = b"module pbs (clk, rst, i_req, i_ack, a_start, a_done);
input clk;
input rst;
input i_req;
input i_ack;
output a_start;
output a_done;
reg q0;
reg q1;
reg q2;
reg q3;
wire w0;
wire w1;
wire w2;
wire w3;
wire w4;
wire w5;
wire w6;
wire w7;
wire w8;
wire w9;
wire w10;
wire w11;
wire w12;
wire w13;
not (w0, rst);
not (w1, i_req);
and (w2, w0, w1);
and (w3, q0, w2);
and (w4, w0, i_req);
and (w5, q2, w4);
not (w6, i_ack);
and (w7, w0, w6);
and (w8, q1, w7);
and (w9, w0, i_ack);
and (w10, q3, w9);
or (w11, w8, w5);
or (w12, rst, w10);
or (w13, w3, w12);
buf (a_start, w5);
buf (a_done, w10);
always @(posedge clk) q0 <= w13;
always @(posedge clk) q1 <= w11;
always @(posedge clk) q2 <= w13;
always @(posedge clk) q3 <= w11;
endmodule
";
