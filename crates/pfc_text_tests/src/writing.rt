//! Texts that the grammar has, each read and written again.

use super::scanning::scanned;
use pfc_parse::parse;
use pfc_tree::write_tokens;
use std::alloc::Global;

/// Each form of a part, of a statement and of an expression, at least once.
const PROGRAMS: &str = "\
program a; begin end.
program a (input); begin end.
program a (input, output); begin end.
program a; const b = 1; c = -b; d = +2; e = 'x'; f = +b; begin end.
program a; type b = integer; c = channel of b; begin end.
program a; type b = array [1..9] of c; d = array [1..9, 'a'..'z', -n..+m] of c; begin end.
program a; type b = record x, y: c; z: d end; begin end.
program a; type b = record x: record y: c; end; end; begin end.
program a; var b: c; d, e: array [1..2] of f; begin end.
program a; const b = 1; var c: d; const e = 2; type f = g; begin end.
program a; procedure p; begin end; begin end.
program a; procedure p (x: t; var y, z: u); var v: w; begin end; begin end.
program a; function f: t; begin end; function g (x: t): u; begin end; begin end.
program a; procedure p; procedure q; const c = 1; begin end; begin end; begin end.
program a; monitor m; end; monitor n; begin end; begin end.
program a; monitor m; export p, q; export r; var v: t; procedure p; begin end; begin end; begin end.
program a; resource r; end; resource s; begin x := 1 end; begin end.
program a; resource r; export p; guarded procedure p (x: t) when x > 0; begin end; end; begin end.
program a; process p; begin end; process type q; begin end; begin end.
program a; process p (x: t); entry e; entry f (n: t); var v: w; procedure q; begin end; begin end; begin end.
program a; begin  end.
program a; begin ; end.
program a; begin null end.
program a; begin begin end end.
program a; begin begin x := 1; y := 2 end end.
program a; begin if b then x := 1 end.
program a; begin if b then x := 1 else x := 2 end.
program a; begin if b then else end.
program a; begin if b then if c then x else y end.
program a; begin if b then if c then x else y else z end.
program a; begin case n of 1: x end end.
program a; begin case n of 1, -2, +c: x; 'a': y end end.
program a; begin case n of 1: x; 2: ; end end.
program a; begin while b do x := 1 end.
program a; begin repeat x; y until b end.
program a; begin repeat x forever end.
program a; begin for i := 1 to 9 do x end.
program a; begin for i := 9 downto 1 do x end.
program a; begin cobegin p; q coend end.
program a; begin accept e end.
program a; begin accept e (n: integer) do x := n end.
program a; begin requeue p end.
program a; begin requeue p (1, 2) end.
program a; begin select c ? n end end.
program a; begin pri select c ! 1 end end.
program a; begin select when b => c ? n; x := 1; y or terminate end end.
program a; begin select accept e or accept f (n: t) do x; y or timeout 10 end end.
program a; begin select c ? n else x; y end end.
program a; begin x := 1 end.
program a; begin x[i, j].y[k] := 1 end.
program a; begin c ! 1 end.
program a; begin c.d ? x[1] end.
program a; begin p end.
program a; begin p (1, x: 8, 'a') end.
program a; begin x := -1 end.
program a; begin x := +a end.
program a; begin x := a + b - c or d end.
program a; begin x := a * b div c mod d and e end.
program a; begin x := a = b end.
program a; begin x := a <> b end.
program a; begin x := (a < b) and (c <= d) or (e > f) end.
program a; begin x := a + 1 >= b * 2 end.
program a; begin x := not not (a) end.
program a; begin x := 'it''s' end.
program a ; begin writeln ( 1 + 2 ) end .
program a ; begin x := - 1 - 'c' or not ( d ) end .
program a ; begin x := + 7 * a [ 2 , 3 ] . b div f ( 4 , 5 : 6 ) end .
program a ; begin x := + 7 mod a [ 2 , 3 ] . b and f ( 4 , 5 : 6 ) end .
program a ; begin x := 1 = 2 end .
program a ; begin x := 1 <> 2 end .
program a ; begin x := 1 < 2 end .
program a ; begin x := 1 <= 2 end .
program a ; begin x := 1 > 2 end .
program a ; begin x := 1 >= 2 end .
program a ( i , o ) ; const c = + 1 ; d = c ; begin end .
program a ( i , o ) ; type t = array [ 1 .. 2 , 3 .. 4 ] of channel of t ; u = record x , y : t ; x , y : t ; end ; begin end .
program a ( i , o ) ; var x , y : t ; x , y : t ; begin end .
program a ( i , o ) ; function p ( var i , j : k ; i , j : k ) : t ; procedure p ; begin end ; begin end ; begin end .
program a ( i , o ) ; monitor m ; export p , r ; export s ; begin end ; begin end .
program a ( i , o ) ; resource m ; guarded procedure p when b ; begin end ; end ; begin end .
program a ( i , o ) ; process type q ; entry e ( i , j : k ) ; entry f ; begin end ; begin end .
program a ( i , o ) ; process q ; begin end ; begin end .
program a ; begin if b then x := 1 end .
program a ; begin if b then x := 1 else x := 1 end .
program a ; begin case n of 1 , - c : x := 1 ; 'd' : x := 1 ; end end .
program a ; begin while b do x := 1 end .
program a ; begin repeat null ; until b end .
program a ; begin repeat begin end forever end .
program a ; begin for i := 1 to 2 do x := 1 end .
program a ; begin for i := 1 downto 2 do x := 1 end .
program a ; begin cobegin p coend end .
program a ; begin requeue q ( 1 ) end .
program a ; begin c ! 1 end .
program a ; begin c ? v end .
program a ; begin select accept e ( var i , j : k ) do begin x := 1 end or when b => c ! 1 ; null end end .
program a ; begin pri select c ? v or terminate end end .
program a ; begin select timeout 2 else null end end .
program a ; begin accept e end .
program a; begin x := not not not not not not not not not not not not not not not not not not not not not not not not not not not not not not not not not not not not not not not not not not not not not not not not not not not not not not not not not not not not not b end.
";

/// Whether the tree of the text's tokens writes their kinds; None where the text has no tree or memory is wanting.
fn is_written_again(alloc: Global, text: &str) -> Option<bool> {
    let scanned = scanned(alloc, text.as_bytes()).ok()?;
    if scanned.tokens.len() > 262_144 {
        return None;
    }
    let tree = parse(alloc, &scanned.tokens).ok()?;
    let kinds = write_tokens(alloc, &tree).ok()?;
    Some(
        scanned.tokens.len() == kinds.len()
            && scanned
                .tokens
                .iter()
                .zip(&kinds)
                .all(|(token, kind)| token.kind == *kind),
    )
}

#[test]
fn programs_are_written_again(rt: HostRuntime) {
    for text in PROGRAMS.lines() {
        assert!(rt;
            is_written_again(rt.alloc(), text) == Some(true),
            "in {text}"
        );
    }
}
