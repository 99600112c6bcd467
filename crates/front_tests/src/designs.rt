//! A whole design: its tokens are read back from its tree.

ghost use Rattle.std.specs.Prelude.{◌<◌, length};
ghost use Rattle.sv_tree.specs.Tokens.{AreNamed};

use parse_expr::ParseFault;
use std::alloc::Global;
use sv_lex::lex;
use sv_parse::parse;
use sv_tree::{Names, SourceTree, Token, tokens_of};

// Whether a tree's tokens are these ones.
fn reads_back(alloc: Global, tree: &SourceTree, tokens: &[Token]) -> bool {
    match tokens_of(alloc, tree) {
        Ok(back) => back.as_slice() == tokens,
        Err(_) => false,
    }
}

// What `parse` answers at tokens: whether the tree has them, or the fault.
fn outcome(alloc: Global, tokens: &[Token], names: &Names) -> Result<bool, ParseFault>
    requires named { AreNamed names.now tokens.now }
    requires few { length tokens.now < 4294967295 }
{
    match parse(alloc, tokens, names) {
        Ok(tree) => Ok(reads_back(alloc, &tree, tokens)),
        Err(fault) => Err(fault),
    }
}

// What `parse` answers at the tokens of a text.
fn read(alloc: Global, text: &[u8]) -> Result<bool, ParseFault> {
    if text.len() > 1_000_000 {
        return Err(ParseFault::NoMemory);
    }
    let Ok(mut names) = Names::new(alloc) else {
        return Err(ParseFault::NoMemory);
    };
    let Ok(tokens) = lex(alloc, 0, text, &mut names) else {
        return Err(ParseFault::NoMemory);
    };
    if tokens.len() > 1_000_000 {
        return Err(ParseFault::NoMemory);
    }
    outcome(alloc, tokens.as_slice(), &names)
}

// A design with each kind of item: a queue with its control, and a top that has two of them.
const FIFO: &str = "import \"DPI-C\" pure function int vs_popcount(int x);
module fifo #(parameter W = 8, parameter D = 16) (
  input logic clk, rst_n, push, pop, input logic [W-1:0] din,
  output logic [W-1:0] dout, output logic full, empty);
  localparam A = $clog2(D);
  logic [W-1:0] mem [0:D-1];
  logic [A:0] wp, rp;
  assign empty = wp == rp;
  assign full = (wp[A] != rp[A]) && (wp[A-1:0] == rp[A-1:0]);
  assign dout = mem[rp[A-1:0]];
  always_ff @(posedge clk or negedge rst_n)
    if (!rst_n) begin wp <= 0; rp <= 0; end
    else begin
      if (push && !full) begin mem[wp[A-1:0]] <= din; wp <= wp + 1; end
      if (pop && !empty) rp <= rp + 1;
    end
endmodule
module top(input logic clk, rst_n, push, pop, input logic [7:0] din,
  output logic [7:0] dout, output logic [31:0] ones,
  output logic [7:0] gray, output logic full, empty);
  logic [7:0] mid;
  logic f1, e0, mv;
  assign mv = !e0 && !f1;
  fifo #(.W(8)) u0 (.clk(clk), .rst_n(rst_n), .push(push), .pop(mv), .din(din),
    .dout(mid), .full(full), .empty(e0));
  fifo #(.W(8), .D(16)) u1 (.clk, .rst_n, .push(mv), .pop, .din(mid),
    .dout(dout), .full(f1), .empty(empty));
  assign ones = vs_popcount(dout);
  for (genvar i = 0; i < 7; i++) begin : g
    assign gray[i] = dout[i] ^ dout[i+1];
  end
  assign gray[7] = dout[7];
endmodule
";

#[test]
fn a_design_is_read_back(rt: HostRuntime) {
    assert_eq!(rt; read(rt.alloc(), FIFO.as_bytes()), Ok(true));
    assert_eq!(rt;
        read(rt.alloc(), b"module m ; else"),
        Err(ParseFault::Syntax(3))
    );
}
