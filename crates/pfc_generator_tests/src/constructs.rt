//! The smallest program of each construct, with its code, which was worked out by hand.

use crate::codes::is_coded;

/// A text in which `~` is a line end, and its instructions from address 0 on, each with its line. A line that begins with `#` is a heading.
const CONSTRUCTS: &str = "\
# the program, and statements that give nothing
program a; begin end.|1 END
program a; begin null; begin null end; end.|1 END
# expressions
program a; const k = -3; begin write(k, maxint, true, 'x') end.|1 LIT -3; 1 WRI 0; 1 LIT 2147483647; 1 WRI 0; 1 LIT 1; 1 WRB 0; 1 LIT 120; 1 WRC 0; 1 END
program a; var i: integer; begin i := +i; i := -i end.|1 ADDR 0 0; 1 ADDR 0 0; 1 LOAD 1; 1 STORE 1; 1 ADDR 0 0; 1 ADDR 0 0; 1 LOAD 1; 1 NEG; 1 STORE 1; 1 END
program a; begin write(1 + 2, 1 - 2, 1 * 2, 1 div 2, 1 mod 2) end.|1 LIT 1; 1 LIT 2; 1 ADD; 1 WRI 0; 1 LIT 1; 1 LIT 2; 1 SUB; 1 WRI 0; 1 LIT 1; 1 LIT 2; 1 \
MUL; 1 WRI 0; 1 LIT 1; 1 LIT 2; 1 DIV; 1 WRI 0; 1 LIT 1; 1 LIT 2; 1 MOD; 1 WRI 0; 1 END
program a; begin write(true and false, true or false, not true) end.|1 LIT 1; 1 LIT 0; 1 AND; 1 WRB 0; 1 LIT 1; 1 LIT 0; 1 OR; 1 WRB 0; 1 LIT 1; 1 NOT; 1 WRB \
0; 1 END
program a; begin write(1 = 2, 1 <> 2, 1 < 2, 1 <= 2, 1 > 2, 1 >= 2) end.|1 LIT 1; 1 LIT 2; 1 EQ; 1 WRB 0; 1 LIT 1; 1 LIT 2; 1 NE; 1 WRB 0; 1 LIT 1; 1 LIT 2; \
1 LT; 1 WRB 0; 1 LIT 1; 1 LIT 2; 1 LE; 1 WRB 0; 1 LIT 1; 1 LIT 2; 1 GT; 1 WRB 0; 1 LIT 1; 1 LIT 2; 1 GE; 1 WRB 0; 1 END
program a; begin write(1 - 2 * (3 - 4) - 5) end.|1 LIT 1; 1 LIT 2; 1 LIT 3; 1 LIT 4; 1 SUB; 1 MUL; 1 SUB; 1 LIT 5; 1 SUB; 1 WRI 0; 1 END
program a; begin write(abs(1), sqr(2), odd(3), ord('x'), chr(4)) end.|1 LIT 1; 1 ABS; 1 WRI 0; 1 LIT 2; 1 SQR; 1 WRI 0; 1 LIT 3; 1 ODD; 1 WRB 0; 1 LIT 120; 1 \
WRI 0; 1 LIT 4; 1 CHR; 1 WRC 0; 1 END
program a; begin write(succ(1), succ(false), succ('x'), pred(1), pred(true), pred('x')) end.|1 LIT 1; 1 SUCC 0; 1 WRI 0; 1 LIT 0; 1 SUCC 1; 1 WRB 0; 1 LIT \
120; 1 SUCC 2; 1 WRC 0; 1 LIT 1; 1 PRED 0; 1 WRI 0; 1 LIT 1; 1 PRED 1; 1 WRB 0; 1 LIT 120; 1 PRED 2; 1 WRC 0; 1 END
program a; begin write(eof, eoln, clock, random(9)) end.|1 EOF; 1 WRB 0; 1 EOLN; 1 WRB 0; 1 CLOCK; 1 WRI 0; 1 LIT 9; 1 RAND; 1 WRI 0; 1 END
# variables with selectors
program a; var t: array[1..3] of integer; begin t[2] := t[3] end.|1 ADDR 0 0; 1 LIT 2; 1 IDX 1 3 1; 1 ADDR 0 0; 1 LIT 3; 1 IDX 1 3 1; 1 LOAD 1; 1 STORE 1; 1 \
END
program a; var t: array[0..1, 'a'..'b'] of char; begin t[0, 'b'] := t[1]['a'] end.|1 ADDR 0 0; 1 LIT 0; 1 IDX 0 1 2; 1 LIT 98; 1 IDX 97 98 1; 1 ADDR 0 0; 1 \
LIT 1; 1 IDX 0 1 2; 1 LIT 97; 1 IDX 97 98 1; 1 LOAD 1; 1 STORE 1; 1 END
program a; var r: record x: char; y: integer end; begin r.y := ord(r.x) end.|1 ADDR 0 0; 1 FLD 1; 1 ADDR 0 0; 1 FLD 0; 1 LOAD 1; 1 STORE 1; 1 END
program a; type t = record x: array[1..2] of char; y: char end; var u, v: t; begin u := v; u.x := v.x end.|1 ADDR 0 0; 1 ADDR 0 3; 1 LOAD 3; 1 STORE 3; 1 \
ADDR 0 0; 1 FLD 0; 1 ADDR 0 3; 1 FLD 0; 1 LOAD 2; 1 STORE 2; 1 END
# statements
program a; begin if true then null end.|1 LIT 1; 1 JF 2; 1 END
program a; begin if true then else end.|1 LIT 1; 1 JF 3; 1 JMP 3; 1 END
program a; begin case 1 of 1: null end end.|1 LIT 1; 1 CEQ 1 3; 1 CERR; 1 JMP 4; 1 END
program a; begin case 'b' of 'a', 'b': ; 'c': ; end end.|1 LIT 98; 1 CEQ 97 5; 1 CEQ 98 5; 1 CEQ 99 6; 1 CERR; 1 JMP 7; 1 JMP 7; 1 END
program a; begin while true do null end.|1 LIT 1; 1 JF 3; 1 TURN 0; 1 END
program a; begin repeat until true end.|1 LIT 1; 1 NOT; 1 JF 4; 1 TURN 0; 1 END
program a; begin repeat forever end.|1 TURN 0; 1 END
program a; var i: integer; begin for i := 1 to 2 do null end.|1 ADDR 0 0; 1 LIT 1; 1 LIT 2; 1 FORB 0 6; 1 FORW; 1 FORT 0 4; 1 END
program a; var c: char; begin for c := 'z' downto 'a' do null end.|1 ADDR 0 0; 1 LIT 122; 1 LIT 97; 1 FORB 1 6; 1 FORW; 1 FORT 1 4; 1 END
# output and input
program a; begin write('ab', '', 'it''s') end.|1 WRS 0 0; 1 WRS 1 0; 1 WRS 2 0; 1 END
program a; begin write(1: 2, true: 3, 'c': 4, 'ab': 5) end.|1 LIT 1; 1 LIT 2; 1 WRI 1; 1 LIT 1; 1 LIT 3; 1 WRB 1; 1 LIT 99; 1 LIT 4; 1 WRC 1; 1 LIT 5; 1 WRS \
0 1; 1 END
program a; begin writeln; writeln(1) end.|1 WRNL; 1 LIT 1; 1 WRI 0; 1 WRNL; 1 END
program a; var i: integer; c: char; begin read(i, c); readln; readln(c) end.|1 ADDR 0 0; 1 RDI; 1 ADDR 0 1; 1 RDC; 1 RDNL; 1 ADDR 0 1; 1 RDC; 1 RDNL; 1 END
# procedures and functions
program a; procedure p; begin end; begin p end.|1 RET; 1 CALL 0 0; 1 END
program a; procedure p; begin p end; begin end.|1 CALL 0 1; 1 RET; 1 END
program a; var x: integer; procedure p(i: integer; var j: integer); begin j := i end; begin p(1, x) end.|1 REF 0 1; 1 ADDR 0 0; 1 LOAD 1; 1 STORE 1; 1 RET; 1 \
LIT 1; 1 ADDR 0 0; 1 CALL 0 0; 1 END
program a; var x: integer; procedure p(var i: integer); begin p(i) end; begin p(x) end.|1 REF 0 0; 1 CALL 0 1; 1 RET; 1 ADDR 0 0; 1 CALL 0 0; 1 END
program a; type r = record x, y: char end; var v: r; procedure p(w: r); begin end; begin p(v) end.|1 RET; 1 ADDR 0 0; 1 LOAD 2; 1 CALL 0 0; 1 END
program a; function f: integer; begin f := 1 end; begin write(f) end.|1 ADDR 0 0; 1 LIT 1; 1 STORE 1; 1 RETF; 1 CALL 0 0; 1 WRI 0; 1 END
program a; function f(i: integer): integer; begin f := i end; begin write(f(1)) end.|1 ADDR 0 1; 1 ADDR 0 0; 1 LOAD 1; 1 STORE 1; 1 RETF; 1 LIT 1; 1 CALL 0 \
0; 1 WRI 0; 1 END
program a; procedure p; var i: integer; procedure q; begin i := 1 end; begin q end; begin p end.|1 ADDR 1 0; 1 LIT 1; 1 STORE 1; 1 RET; 1 CALL 0 0; 1 RET; 1 \
CALL 1 0; 1 END
program a; procedure p; begin end; procedure q; procedure r; begin p end; begin r end; begin q end.|1 RET; 1 CALL 0 2; 1 RET; 1 CALL 1 0; 1 RET; 1 CALL 2 0; \
1 END
program a; function f: char; procedure p; begin f := 'x' end; begin p end; begin write(f) end.|1 ADDR 1 0; 1 LIT 120; 1 STORE 1; 1 RET; 1 CALL 0 0; 1 RETF; 1 \
CALL 1 0; 1 WRC 0; 1 END
# processes
program a; begin cobegin coend end.|1 COEND; 1 END
program a; process p; begin end; begin cobegin p coend end.|1 END; 1 ADDR 0 0; 1 OBJ; 1 NEW 0; 1 COEND; 1 END
program a; process p(i: integer); begin end; begin cobegin p(1) coend end.|1 END; 1 ADDR 0 0; 1 OBJ; 1 LIT 1; 1 NEW 0; 1 COEND; 1 END
program a; process p(var i: char); begin i := 'x' end; var x: char; begin cobegin p(x) coend end.|1 REF 0 0; 1 LIT 120; 1 STORE 1; 1 END; 1 ADDR 0 0; 1 OBJ; \
1 ADDR 0 1; 1 NEW 0; 1 COEND; 1 END
program a; process type p; begin end; var q: p; t: array[1..2] of p; begin cobegin q; t[2] coend end.|1 END; 1 ADDR 0 0; 1 OBJ; 1 NEW 0; 1 ADDR 0 1; 1 LIT 2; \
1 IDX 1 2 1; 1 OBJ; 1 NEW 0; 1 COEND; 1 END
program a; process p; procedure q; begin end; begin q end; begin end.|1 RET; 1 CALL 0 0; 1 END; 1 END
program a; procedure p; begin end; process q; begin p end; begin end.|1 RET; 1 CALL 0 1; 1 END; 1 END
program a; begin sleep(1) end.|1 LIT 1; 1 SLEEP; 1 END
# semaphores
program a; var s: semaphore; begin initial(s, 1) end.|1 ADDR 0 0; 1 OBJ; 1 LIT 1; 1 SINI; 1 END
program a; var s: semaphore; begin wait(s) end.|1 ADDR 0 0; 1 OBJ; 1 SWAIT; 1 END
program a; var s: semaphore; begin signal(s) end.|1 ADDR 0 0; 1 OBJ; 1 SSIG; 1 END
program a; var s: array[1..2] of semaphore; procedure p(var t: semaphore); begin wait(t) end; begin p(s[1]) end.|1 REF 0 0; 1 OBJ; 1 SWAIT; 1 RET; 1 ADDR 0 \
0; 1 LIT 1; 1 IDX 1 2 1; 1 CALL 0 0; 1 END
# channels
program a; var c: channel of integer; begin c ! 1 end.|1 ADDR 0 0; 1 OBJ; 1 LIT 1; 1 SEND 1; 1 END
program a; var c: channel of integer; v: integer; begin c ? v end.|1 ADDR 0 0; 1 OBJ; 1 ADDR 0 1; 1 RECV 1; 1 END
program a; type r = record x, y: char end; var c: channel of r; v: r; begin c ! v; c ? v end.|1 ADDR 0 0; 1 OBJ; 1 ADDR 0 1; 1 LOAD 2; 1 SEND 2; 1 ADDR 0 0; \
1 OBJ; 1 ADDR 0 1; 1 RECV 2; 1 END
program a; var c: channel of synchronous; begin c ! any; c ? any end.|1 ADDR 0 0; 1 OBJ; 1 SEND 0; 1 ADDR 0 0; 1 OBJ; 1 RECV 0; 1 END
program a; type t = channel of char; var c: t; procedure p(var d: t); begin d ! 'x' end; begin p(c) end.|1 REF 0 0; 1 OBJ; 1 LIT 120; 1 SEND 1; 1 RET; 1 ADDR \
0 0; 1 CALL 0 0; 1 END
program a; var r: record x: char; c: channel of char end; begin r.c ! 'y' end.|1 ADDR 0 0; 1 FLD 1; 1 OBJ; 1 LIT 121; 1 SEND 1; 1 END
# monitors
program a; monitor m; export p; procedure p; begin end; end; begin m.p end.|1 RET; 1 MCALL 0 0; 1 END
program a; monitor m; export p; procedure p(i: integer; var j: integer); begin j := i end; end; var x: integer; begin m.p(1, x) end.|1 REF 0 1; 1 ADDR 0 0; 1 \
LOAD 1; 1 STORE 1; 1 RET; 1 LIT 1; 1 ADDR 0 0; 1 MCALL 0 0; 1 END
program a; monitor l; end; monitor m; export p; var n: integer; procedure q; begin n := 1 end; procedure p; begin q end; end; begin m.p end.|1 ADDR 1 0; 1 \
LIT 1; 1 STORE 1; 1 RET; 1 CALL 0 1; 1 RET; 1 MCALL 1 1; 1 END
program a; monitor m; var c: condition; procedure p; begin delay(c) end; end; begin end.|1 ADDR 1 0; 1 OBJ; 1 LIT 0; 1 DELAY; 1 RET; 1 END
program a; monitor m; var c: condition; procedure p; begin delay(c, 2) end; end; begin end.|1 ADDR 1 0; 1 OBJ; 1 LIT 2; 1 DELAY; 1 RET; 1 END
program a; monitor m; var c: condition; procedure p; begin resume(c) end; end; begin end.|1 ADDR 1 0; 1 OBJ; 1 RESUME; 1 RET; 1 END
program a; monitor m; var c: condition; procedure p; begin write(empty(c)) end; end; begin end.|1 ADDR 1 0; 1 OBJ; 1 EMPTY; 1 WRB 0; 1 RET; 1 END
program a; monitor m; var n: integer; begin n := 1 end; begin write(2) end.|1 ADDR 0 0; 1 LIT 1; 1 STORE 1; 1 LIT 2; 1 WRI 0; 1 END
program a; monitor m; begin write('one') end; procedure p; begin write('two') end; begin p end.|1 WRS 1 0; 1 RET; 1 WRS 0 0; 1 CALL 0 0; 1 END
# resources
program a; resource r; end; begin end.|1 SCAN 0; 1 END
program a; resource r; export p; procedure p; begin end; end; begin r.p end.|1 RET; 1 SCAN 0; 1 RCALL 0 0; 1 END
program a; resource r; export p; guarded procedure p when true; begin end; end; begin r.p end.|1 LIT 1; 1 GRD 0; 1 RET; 1 SCAN 0; 1 RCALL 0 0; 1 END
program a; resource r; export p; var n: integer; guarded procedure p(i: integer) when n > 0; begin n := i end; end; begin r.p(1) end.|1 ADDR 1 0; 1 LOAD 1; 1 \
LIT 0; 1 GT; 1 GRD 0; 1 ADDR 1 0; 1 ADDR 0 0; 1 LOAD 1; 1 STORE 1; 1 RET; 1 SCAN 0; 1 LIT 1; 1 RCALL 0 0; 1 END
program a; resource q; end; resource r; export p; guarded procedure p when true; begin end; end; begin r.p end.|1 SCAN 0; 1 LIT 1; 1 GRD 1; 1 RET; 1 SCAN 1; \
1 RCALL 1 0; 1 END
program a; resource r; guarded procedure p when true; begin requeue p end; end; begin end.|1 LIT 1; 1 GRD 0; 1 REQ 0 0; 1 RET; 1 SCAN 0; 1 END
program a; resource r; guarded procedure q(i: integer) when true; begin end; guarded procedure p when true; begin requeue q(1) end; end; begin end.|1 LIT 1; \
1 GRD 0; 1 RET; 1 LIT 1; 1 GRD 0; 1 LIT 1; 1 REQ 0 0; 1 RET; 1 SCAN 0; 1 END
program a; monitor m; var n: integer; begin n := 1 end; resource r; var n: integer; begin n := 2 end; begin write(3) end.|1 SCAN 0; 1 ADDR 0 0; 1 LIT 1; 1 \
STORE 1; 1 ADDR 0 1; 1 LIT 2; 1 STORE 1; 1 LIT 3; 1 WRI 0; 1 END
# entries
program a; process p; entry e; begin accept e end; process q; begin p.e end; begin end.|1 ACC 0 0 0; 1 EACC; 1 END; 1 ADDR 1 0; 1 OBJ; 1 ECALL 0 0; 1 END; 1 \
END
program a; process p; entry e; entry f; begin accept f end; process q; entry g; begin accept g; p.f end; begin end.|1 ACC 1 0 0; 1 EACC; 1 END; 1 ACC 0 0 0; \
1 EACC; 1 ADDR 1 0; 1 OBJ; 1 ECALL 1 0; 1 END; 1 END
program a; process p; entry e; begin accept e do write(1) end; begin end.|1 ACC 0 0 0; 1 LIT 1; 1 WRI 0; 1 EACC; 1 END; 1 END
program a; process p; entry e(i: integer; var j: integer); var k: integer; begin accept e(l: integer; var m: integer) do m := l end; var x: integer; process \
q; begin p.e(1, x) end; begin end.|1 ACC 0 1 2; 1 REF 0 2; 1 ADDR 0 1; 1 LOAD 1; 1 STORE 1; 1 EACC; 1 END; 1 ADDR 1 0; 1 OBJ; 1 LIT 1; 1 ADDR 1 1; 1 ECALL 0 \
2; 1 END; 1 END
program a; type r = record x, y: char end; var v: r; process p; entry e(w: r); begin accept e(w: r) end; process q; begin p.e(v) end; begin end.|1 ACC 0 0 2; \
1 EACC; 1 END; 1 ADDR 1 2; 1 OBJ; 1 ADDR 1 0; 1 LOAD 2; 1 ECALL 0 2; 1 END; 1 END
program a; process type s; entry e; begin accept e end; var t: array[1..2] of s; begin t[2].e end.|1 ACC 0 0 0; 1 EACC; 1 END; 1 ADDR 0 0; 1 LIT 2; 1 IDX 1 2 \
1; 1 OBJ; 1 ECALL 0 0; 1 END
program a; process p; entry e; var k: integer; begin accept e end; begin end.|1 ACC 0 1 0; 1 EACC; 1 END; 1 END
# selects
program a; process p; entry e; begin select accept e end end; begin end.|1 ARMA 0 0 0 2; 1 SEL 0 0; 1 EACC; 1 JMP 4; 1 END; 1 END
program a; process p; entry e(i: integer); begin select accept e(i: integer) do write(i); write('x') end end; begin end.|1 ARMA 0 0 1 2; 1 SEL 0 0; 1 ADDR 0 \
0; 1 LOAD 1; 1 WRI 0; 1 EACC; 1 LIT 120; 1 WRC 0; 1 JMP 9; 1 END; 1 END
program a; var c: channel of integer; begin select c ! 1 end end.|1 ADDR 0 0; 1 OBJ; 1 LIT 1; 1 ARMS 1 5; 1 SEL 0 0; 1 JMP 6; 1 END
program a; var c: channel of integer; v: integer; begin select c ? v end end.|1 ADDR 0 0; 1 OBJ; 1 ADDR 0 1; 1 ARMR 1 5; 1 SEL 0 0; 1 JMP 6; 1 END
program a; var c: channel of integer; v: integer; begin select c ? v or c ? v; write(1) end end.|1 ADDR 0 0; 1 OBJ; 1 ADDR 0 1; 1 ARMR 1 9; 1 ADDR 0 0; 1 \
OBJ; 1 ADDR 0 1; 1 ARMR 1 10; 1 SEL 0 0; 1 JMP 13; 1 LIT 1; 1 WRI 0; 1 JMP 13; 1 END
program a; var c: channel of synchronous; begin select c ! any; or c ? any end end.|1 ADDR 0 0; 1 OBJ; 1 ARMS 0 7; 1 ADDR 0 0; 1 OBJ; 1 ARMR 0 8; 1 SEL 0 0; \
1 JMP 9; 1 JMP 9; 1 END
program a; var c: channel of integer; v: integer; b: boolean; begin select when b => c ? v end end.|1 ADDR 0 2; 1 LOAD 1; 1 JF 7; 1 ADDR 0 0; 1 OBJ; 1 ADDR 0 \
1; 1 ARMR 1 8; 1 SEL 0 0; 1 JMP 9; 1 END
program a; var c: channel of integer; v: integer; begin select when false => c ? v or when true => c ? v end end.|1 LIT 0; 1 JF 6; 1 ADDR 0 0; 1 OBJ; 1 ADDR \
0 1; 1 ARMR 1 13; 1 LIT 1; 1 JF 12; 1 ADDR 0 0; 1 OBJ; 1 ADDR 0 1; 1 ARMR 1 14; 1 SEL 0 0; 1 JMP 15; 1 JMP 15; 1 END
program a; var c: channel of integer; v: integer; begin pri select c ? v end end.|1 ADDR 0 0; 1 OBJ; 1 ADDR 0 1; 1 ARMR 1 5; 1 SEL 1 0; 1 JMP 6; 1 END
program a; var c: channel of integer; v: integer; begin select c ? v else write(1) end end.|1 ADDR 0 0; 1 OBJ; 1 ADDR 0 1; 1 ARMR 1 5; 1 SEL 0 6; 1 JMP 8; 1 \
LIT 1; 1 WRI 0; 1 END
program a; var c: channel of integer; v: integer; begin select c ? v else end end.|1 ADDR 0 0; 1 OBJ; 1 ADDR 0 1; 1 ARMR 1 5; 1 SEL 0 6; 1 JMP 6; 1 END
program a; var c: channel of integer; v: integer; begin select c ? v or timeout 1 end end.|1 ADDR 0 0; 1 OBJ; 1 ADDR 0 1; 1 ARMR 1 7; 1 LIT 1; 1 ARMT 8; 1 \
SEL 0 0; 1 JMP 9; 1 JMP 9; 1 END
program a; var c: channel of integer; v: integer; begin select c ? v or when true => timeout 1 end end.|1 ADDR 0 0; 1 OBJ; 1 ADDR 0 1; 1 ARMR 1 9; 1 LIT 1; 1 \
JF 8; 1 LIT 1; 1 ARMT 10; 1 SEL 0 0; 1 JMP 11; 1 JMP 11; 1 END
program a; process p; entry e; begin select accept e or terminate end end; begin end.|1 ARMA 0 0 0 3; 1 ARMX; 1 SEL 0 0; 1 EACC; 1 JMP 5; 1 END; 1 END
program a; process p; entry e; begin select accept e or when true => terminate end end; begin end.|1 ARMA 0 0 0 5; 1 LIT 1; 1 JF 4; 1 ARMX; 1 SEL 0 0; 1 \
EACC; 1 JMP 7; 1 END; 1 END
program a; process p; entry e; begin select accept e or terminate; write('one') end end; begin write('two') end.|1 ARMA 0 0 0 3; 1 ARMX; 1 SEL 0 0; 1 EACC; 1 \
JMP 5; 1 END; 1 WRS 1 0; 1 END
program a; process p; entry e(i: integer); begin select accept e(i: integer) or terminate; accept e(i: integer) end; accept e(i: integer) end; begin end.|1 \
ARMA 0 0 1 3; 1 ARMX; 1 SEL 0 0; 1 EACC; 1 JMP 5; 1 ACC 0 2 1; 1 EACC; 1 END; 1 END
# replicated alternatives
program a; var c: channel of integer; k: integer; begin select for k := 1 to 2 replicate c ! k end end.|1 ADDR 0 1; 1 LIT 1; 1 STORE 1; 1 ADDR 0 0; 1 OBJ; 1 \
ADDR 0 1; 1 LOAD 1; 1 ARMS 1 17; 1 ADDR 0 1; 1 LIT 2; 1 STORE 1; 1 ADDR 0 0; 1 OBJ; 1 ADDR 0 1; 1 LOAD 1; 1 ARMS 1 21; 1 SEL 0 0; 1 ADDR 0 1; 1 LIT 1; 1 \
STORE 1; 1 JMP 25; 1 ADDR 0 1; 1 LIT 2; 1 STORE 1; 1 JMP 25; 1 JMP 26; 1 END
program a; var c: channel of integer; v, k: integer; begin select for k := 1 to 2 replicate c ? v; write(k) end end.|1 ADDR 0 2; 1 LIT 1; 1 STORE 1; 1 ADDR 0 \
0; 1 OBJ; 1 ADDR 0 1; 1 ARMR 1 15; 1 ADDR 0 2; 1 LIT 2; 1 STORE 1; 1 ADDR 0 0; 1 OBJ; 1 ADDR 0 1; 1 ARMR 1 19; 1 SEL 0 0; 1 ADDR 0 2; 1 LIT 1; 1 STORE 1; 1 \
JMP 23; 1 ADDR 0 2; 1 LIT 2; 1 STORE 1; 1 JMP 23; 1 ADDR 0 2; 1 LOAD 1; 1 WRI 0; 1 JMP 27; 1 END
program a; process p; entry e; var c: char; begin select for c := 'x' to 'x' replicate accept e do write(c) end end; begin end.|1 ADDR 0 0; 1 LIT 120; 1 \
STORE 1; 1 ARMA 0 1 0 5; 1 SEL 0 0; 1 ADDR 0 0; 1 LIT 120; 1 STORE 1; 1 JMP 9; 1 ADDR 0 0; 1 LOAD 1; 1 WRC 0; 1 EACC; 1 JMP 14; 1 END; 1 END
program a; var c: channel of integer; k: integer; begin select for k := 3 to 3 replicate when k > 0 => c ! k end end.|1 ADDR 0 1; 1 LIT 3; 1 STORE 1; 1 ADDR \
0 1; 1 LOAD 1; 1 LIT 0; 1 GT; 1 JF 13; 1 ADDR 0 0; 1 OBJ; 1 ADDR 0 1; 1 LOAD 1; 1 ARMS 1 14; 1 SEL 0 0; 1 ADDR 0 1; 1 LIT 3; 1 STORE 1; 1 JMP 18; 1 JMP 19; 1 \
END
program a; var c: channel of integer; k: integer; begin select for k := 2 to 1 replicate c ! k; write(1) end end.|1 SEL 0 0; 1 LIT 1; 1 WRI 0; 1 JMP 4; 1 END
# lines
program a;~var i: integer;~begin~  repeat~    i :=~      1~  until~    i = 1;~  case~    i of~    1:~      null~  end;~  for i :=~    1 to 2 do~      write(~ \
       i)~end.|5 ADDR 0 0; 5 LIT 1; 5 STORE 1; 4 ADDR 0 0; 4 LOAD 1; 4 LIT 1; 4 EQ; 4 NOT; 4 JF 10; 4 TURN 0; 9 ADDR 0 0; 9 LOAD 1; 9 CEQ 1 14; 9 CERR; 9 JMP \
15; 14 ADDR 0 0; 14 LIT 1; 14 LIT 2; 14 FORB 0 24; 14 FORW; 16 ADDR 0 0; 16 LOAD 1; 16 WRI 0; 14 FORT 0 19; 18 END
program a;~resource r;~  guarded procedure p~    when~      true;~  begin~  end;~end;~process p;~  entry e;~begin~  pri~  select~    accept e~    do~      \
null;~    write(1)~  or~    terminate~  end~end;~begin~  cobegin~    p~  coend~end.|4 LIT 1; 4 GRD 0; 7 RET; 8 SCAN 0; 12 ARMA 0 0 0 7; 12 ARMX; 12 SEL 1 0; \
14 EACC; 17 LIT 1; 17 WRI 0; 12 JMP 11; 21 END; 24 ADDR 0 0; 24 OBJ; 24 NEW 1; 25 COEND; 26 END
";

#[test]
fn constructs_have_their_code(rt: HostRuntime) {
    for line in CONSTRUCTS.lines() {
        if !line.as_bytes().starts_with(b"#") {
            assert!(rt; is_coded(rt.alloc(), line) == Ok(true), "in {line}");
        }
    }
}
