//! A text with its blocks.
ghost use Rattle.std.specs.Prelude.{◌≤◌, length};

use pfc_base::Token;
use pfc_check::check;
use pfc_parse::parse;
use pfc_program::{Block, Names, Program, find};
use pfc_scan::scan;
use pfc_tree::Stmt;
use pfc_types::Checked;
use std::alloc::Global;

/// Two variables of the program, a monitor, a resource with a guard, and a process with a function and two accepts.
const TEXT: &str = "program p;
var a, b: integer;
monitor m;
  export q;
  var n: array [1..3] of integer;
  procedure q(x: integer);
  begin n[1] := x end;
begin n[2] := 0
end;
resource r;
  export t;
  var k: integer;
  guarded procedure t(x: integer) when k > 0;
  begin k := k - x end;
end;
process s;
  entry e(y: integer; var z: integer);
  function f(u, v: integer): integer;
  var w: integer;
  begin w := u; f := v end;
begin
  accept e(y: integer; var z: integer) do z := y;
  select accept e(y: integer; var z: integer) or terminate end
end;
begin
  a := 1;
  cobegin s coend
end.";

/// What is known of a block: the numbers of its scope, of the scope around and of the next scope, the lines of its `begin` and its
/// `end`, and how many variables, cells and accepts it has.
type Row = (u32, u32, u32, u32, u32, usize, u32, u32);

/// In the order of `begin`.
const BLOCKS: [Row; 4] = [
    (2, 1, 3, 7, 7, 1, 1, 0),
    (4, 3, 5, 14, 14, 1, 1, 0),
    (6, 5, 7, 20, 20, 4, 4, 0),
    (5, 0, 7, 21, 24, 4, 4, 2),
];

/// In the order of the text.
const MODULES: [Row; 1] = [(1, 0, 3, 8, 9, 0, 0, 0)];

const MAIN: Row = (0, 0, 9, 25, 28, 5, 7, 0);

fn row_of(b: &Block) -> Row {
    (
        b.scope,
        b.outer,
        b.next,
        b.first_line,
        b.last_line,
        b.layout.len(),
        b.cells,
        b.accepts,
    )
}

fn are_rows(blocks: &[Block], rows: &[Row]) -> bool {
    blocks.len() == rows.len() && blocks.iter().zip(rows).all(|(b, row)| row_of(b) == *row)
}

/// The checked tree that tokens write, None where they have a fault or memory was refused.
fn checked(alloc: Global, tokens: &[Token]) -> Option<Checked>
    requires { length tokens.now ≤ 262144 }
{
    let Ok(tree) = parse(alloc, tokens) else {
        return None;
    };
    match check(alloc, tree) {
        Ok(tree) => Some(tree),
        Err(_fault) => None,
    }
}

/// The checked tree of a text, None where it has a fault or memory was refused.
fn tree_of(alloc: Global, text: &[u8]) -> Option<Checked> {
    if text.len() > 262_144 {
        return None;
    }
    let Ok(scanned) = scan(alloc, text) else {
        return None;
    };
    checked(alloc, &scanned.tokens)
}

/// The scope and the place of the variable that a statement assigns, None where it is no assignment.
fn assigned(g: &Program, names: &Names, s: &Stmt) -> Option<(u32, u32)> {
    match s {
        Stmt::Assign(d, _, _, _) => {
            let spot = g.spot(find(g.tables, names, &d.name));
            Some((spot.scope, spot.variable))
        }
        _ => None,
    }
}

/// Whether the statements of a block assign these variables, and do nothing else.
fn assigns(g: &Program, b: &Block, spots: &[(u32, u32)]) -> bool {
    b.stmts.len() == spots.len()
        && b.stmts
            .iter()
            .zip(spots)
            .all(|(s, spot)| assigned(g, &b.names, s) == Some(*spot))
}

#[test]
fn blocks_are_known(rt: HostRuntime) {
    let Some(tree) = tree_of(rt.alloc(), TEXT.as_bytes()) else {
        assert!(rt; false);
        return
    };
    let Ok(g) = Program::new(rt.alloc(), &tree) else {
        assert!(rt; false);
        return
    };
    assert!(rt; are_rows(&g.blocks, &BLOCKS));
    assert!(rt; are_rows(&g.modules, &MODULES));
    assert!(rt; row_of(&g.main) == MAIN);
    assert!(rt; g.resource_ends.as_slice() == [15].as_slice());
    assert!(rt; g.block_at(5).accepts == 2);
    assert!(rt; g.block_number(6) == 2);
}

#[test]
fn variables_have_their_places(rt: HostRuntime) {
    let Some(tree) = tree_of(rt.alloc(), TEXT.as_bytes()) else {
        assert!(rt; false);
        return
    };
    let Ok(g) = Program::new(rt.alloc(), &tree) else {
        assert!(rt; false);
        return
    };
    assert!(rt; assigns(&g, g.block_at(2), &[(1, 2)]));
    assert!(rt; assigns(&g, g.block_at(4), &[(3, 3)]));
    assert!(rt; assigns(&g, g.block_at(6), &[(6, 3), (6, 2)]));
    for b in &g.modules {
        assert!(rt; assigns(&g, b, &[(1, 2)]));
    }
}
