//! Texts with their code.

use crate::images::image_of;
use pfc_base::Memory;
use pfc_code::{Image, print_code};
use std::alloc::Global;

/// A text in which `~` is a line end, and its instructions from address 0 on, each with its line.
const CODES: &str = "\
program a; begin writeln(1+2) end.|1 LIT 1; 1 LIT 2; 1 ADD; 1 WRI 0; 1 WRNL; 1 END
program a; var x: integer; process p; begin x := x + 1 end; process q; begin x := x + 1 end; begin cobegin p; q coend; writeln(x) end.|1 ADDR 1 0; 1 \
ADDR 1 0; 1 LOAD 1; 1 LIT 1; 1 ADD; 1 STORE 1; 1 END; 1 ADDR 1 0; 1 ADDR 1 0; 1 LOAD 1; 1 LIT 1; 1 ADD; 1 STORE 1; 1 END; 1 ADDR 0 1; 1 OBJ; 1 NEW 0; \
1 ADDR 0 2; 1 OBJ; 1 NEW 1; 1 COEND; 1 ADDR 0 0; 1 LOAD 1; 1 WRI 0; 1 WRNL; 1 END
program g;~resource r; export s; var up: boolean; n: integer;~  guarded procedure s when up; var up: boolean; function n: integer; begin n := 7 end; \
begin if not up then write(n) end;~begin up := true end;~begin r.s; writeln end.|3 ADDR 0 0; 3 LIT 7; 3 STORE 1; 3 RETF; 3 ADDR 1 0; 3 LOAD 1; 3 GRD \
0; 3 ADDR 0 0; 3 LOAD 1; 3 NOT; 3 JF 13; 3 CALL 0 0; 3 WRI 0; 3 RET; 4 SCAN 0; 4 ADDR 0 0; 4 LIT 1; 4 STORE 1; 5 RCALL 0 1; 5 WRNL; 5 END
program r;~process s; entry e; begin write('s'); select accept e or terminate end end;~process p; begin s.e end;~begin cobegin s coend; cobegin s; p \
coend;~ writeln end.|2 LIT 115; 2 WRC 0; 2 ARMA 0 0 0 5; 2 ARMX; 2 SEL 0 0; 2 EACC; 2 JMP 7; 2 END; 3 ADDR 1 0; 3 OBJ; 3 ECALL 0 0; 3 END; 4 ADDR 0 \
0; 4 OBJ; 4 NEW 0; 4 COEND; 4 ADDR 0 0; 4 OBJ; 4 NEW 0; 4 ADDR 0 1; 4 OBJ; 4 NEW 1; 4 COEND; 5 WRNL; 5 END
program i;~monitor m; export p; var c: condition;~  procedure p; begin delay(c) end;~begin p end;~begin m.p end.|3 ADDR 1 0; 3 OBJ; 3 LIT 0; 3 DELAY; \
3 RET; 4 CALL 0 0; 5 MCALL 0 0; 5 END
program s; var a: semaphore; process p; begin wait(a) end; process q; begin sleep(1); signal(a) end; begin initial(a, 0); cobegin p; q coend; wait(a) \
end.|1 ADDR 1 0; 1 OBJ; 1 SWAIT; 1 END; 1 LIT 1; 1 SLEEP; 1 ADDR 1 0; 1 OBJ; 1 SSIG; 1 END; 1 ADDR 0 0; 1 OBJ; 1 LIT 0; 1 SINI; 1 ADDR 0 1; 1 OBJ; 1 \
NEW 0; 1 ADDR 0 2; 1 OBJ; 1 NEW 1; 1 COEND; 1 ADDR 0 0; 1 OBJ; 1 SWAIT; 1 END
program g;~process s;~entry e;~begin~  accept e~  do~    null;~  write('s')~end;~process c; begin s.e end;~begin cobegin s; c coend end.|5 ACC 0 0 0; \
5 EACC; 8 LIT 115; 8 WRC 0; 9 END; 10 ADDR 1 0; 10 OBJ; 10 ECALL 0 0; 10 END; 11 ADDR 0 0; 11 OBJ; 11 NEW 0; 11 ADDR 0 1; 11 OBJ; 11 NEW 1; 11 COEND; \
11 END
program k;~monitor m; export put, go; var c: condition;~  procedure put(i, r: integer); begin delay(c, r); write(i) end;~  procedure go; begin while \
not empty(c) do resume(c) end;~end;~process type w(i, r: integer); begin sleep(i); m.put(i, r) end;~var t: array[1..4] of w;~process o; begin \
sleep(9); m.go end;~begin cobegin t[1](1, 3); t[2](2, -1); t[3](3, 3); t[4](4, -1); o coend; writeln end.|3 ADDR 1 0; 3 OBJ; 3 ADDR 0 1; 3 LOAD 1; 3 \
DELAY; 3 ADDR 0 0; 3 LOAD 1; 3 WRI 0; 3 RET; 4 ADDR 1 0; 4 OBJ; 4 EMPTY; 4 NOT; 4 JF 18; 4 ADDR 1 0; 4 OBJ; 4 RESUME; 4 TURN 9; 4 RET; 6 ADDR 0 0; 6 \
LOAD 1; 6 SLEEP; 6 ADDR 0 0; 6 LOAD 1; 6 ADDR 0 1; 6 LOAD 1; 6 MCALL 0 0; 6 END; 8 LIT 9; 8 SLEEP; 8 MCALL 0 1; 8 END; 9 ADDR 0 1; 9 LIT 1; 9 IDX 1 4 \
1; 9 OBJ; 9 LIT 1; 9 LIT 3; 9 NEW 2; 9 ADDR 0 1; 9 LIT 2; 9 IDX 1 4 1; 9 OBJ; 9 LIT 2; 9 LIT 1; 9 NEG; 9 NEW 2; 9 ADDR 0 1; 9 LIT 3; 9 IDX 1 4 1; 9 \
OBJ; 9 LIT 3; 9 LIT 3; 9 NEW 2; 9 ADDR 0 1; 9 LIT 4; 9 IDX 1 4 1; 9 OBJ; 9 LIT 4; 9 LIT 1; 9 NEG; 9 NEW 2; 9 ADDR 0 5; 9 OBJ; 9 NEW 3; 9 COEND; 9 \
WRNL; 9 END
program g;~var c, d: channel of integer; v: integer;~function f: boolean; begin f := false; select d ? v; f := true else f := v = 0 end end;~process \
p; begin c ! 5 end;~process q; begin select when f => c ? v; write(v) or when not f => d ? v; write('d') end end;~begin cobegin p; q coend; writeln \
end.|3 ADDR 0 0; 3 LIT 0; 3 STORE 1; 3 ADDR 1 1; 3 OBJ; 3 ADDR 1 2; 3 ARMR 1 8; 3 SEL 0 12; 3 ADDR 0 0; 3 LIT 1; 3 STORE 1; 3 JMP 18; 3 ADDR 0 0; 3 \
ADDR 1 2; 3 LOAD 1; 3 LIT 0; 3 EQ; 3 STORE 1; 3 RETF; 4 ADDR 1 0; 4 OBJ; 4 LIT 5; 4 SEND 1; 4 END; 5 CALL 0 1; 5 JF 30; 5 ADDR 1 0; 5 OBJ; 5 ADDR 1 \
2; 5 ARMR 1 38; 5 CALL 0 1; 5 NOT; 5 JF 37; 5 ADDR 1 1; 5 OBJ; 5 ADDR 1 2; 5 ARMR 1 42; 5 SEL 0 0; 5 ADDR 1 2; 5 LOAD 1; 5 WRI 0; 5 JMP 45; 5 LIT \
100; 5 WRC 0; 5 JMP 45; 5 END; 6 ADDR 0 3; 6 OBJ; 6 NEW 1; 6 ADDR 0 4; 6 OBJ; 6 NEW 2; 6 COEND; 6 WRNL; 6 END
program i;~monitor m; export p, q; var n: integer; c: condition;~  procedure p; begin n := n + 1; write('p', n) end;~  procedure q; begin p; \
write('q') end;~begin n := 5; q end;~resource r; export s; var b: boolean;~  guarded procedure s when b; begin write('s') end;~  procedure t; begin \
write('t') end;~begin t; b := true end;~begin m.p; m.q; r.s; writeln end.|3 ADDR 1 0; 3 ADDR 1 0; 3 LOAD 1; 3 LIT 1; 3 ADD; 3 STORE 1; 3 LIT 112; 3 \
WRC 0; 3 ADDR 1 0; 3 LOAD 1; 3 WRI 0; 3 RET; 4 CALL 0 1; 4 LIT 113; 4 WRC 0; 4 RET; 7 ADDR 1 2; 7 LOAD 1; 7 GRD 0; 7 LIT 115; 7 WRC 0; 7 RET; 8 LIT \
116; 8 WRC 0; 8 RET; 9 SCAN 0; 5 ADDR 0 0; 5 LIT 5; 5 STORE 1; 5 CALL 1 0; 9 CALL 3 0; 9 ADDR 0 2; 9 LIT 1; 9 STORE 1; 10 MCALL 0 0; 10 MCALL 0 1; 10 \
RCALL 0 2; 10 WRNL; 10 END
program k;~process s; entry e(n: integer); var i: integer;~begin repeat select for i := 1 to 3 replicate when i > 1 => accept e(n: integer) do begin \
write(i, n); i := 7 end; write(i, ';') or terminate end until i = 99 end;~process a; begin s.e(4); s.e(5) end;~begin cobegin s; a coend; writeln \
end.|3 ADDR 0 0; 3 LIT 1; 3 STORE 1; 3 ADDR 0 0; 3 LOAD 1; 3 LIT 1; 3 GT; 3 JF 9; 3 ARMA 0 1 1 29; 3 ADDR 0 0; 3 LIT 2; 3 STORE 1; 3 ADDR 0 0; 3 LOAD \
1; 3 LIT 1; 3 GT; 3 JF 18; 3 ARMA 0 1 1 33; 3 ADDR 0 0; 3 LIT 3; 3 STORE 1; 3 ADDR 0 0; 3 LOAD 1; 3 LIT 1; 3 GT; 3 JF 27; 3 ARMA 0 1 1 37; 3 ARMX; 3 \
SEL 0 0; 3 ADDR 0 0; 3 LIT 1; 3 STORE 1; 3 JMP 41; 3 ADDR 0 0; 3 LIT 2; 3 STORE 1; 3 JMP 41; 3 ADDR 0 0; 3 LIT 3; 3 STORE 1; 3 JMP 41; 3 ADDR 0 0; 3 \
LOAD 1; 3 WRI 0; 3 ADDR 0 1; 3 LOAD 1; 3 WRI 0; 3 ADDR 0 0; 3 LIT 7; 3 STORE 1; 3 EACC; 3 ADDR 0 0; 3 LOAD 1; 3 WRI 0; 3 LIT 59; 3 WRC 0; 3 JMP 57; 3 \
ADDR 0 0; 3 LOAD 1; 3 LIT 99; 3 EQ; 3 NOT; 3 JF 64; 3 TURN 0; 3 END; 4 ADDR 1 0; 4 OBJ; 4 LIT 4; 4 ECALL 0 1; 4 ADDR 1 0; 4 OBJ; 4 LIT 5; 4 ECALL 0 \
1; 4 END; 5 ADDR 0 0; 5 OBJ; 5 NEW 0; 5 ADDR 0 1; 5 OBJ; 5 NEW 1; 5 COEND; 5 WRNL; 5 END
program w;~type v = array[1..3] of integer; r = record a: v; c: char end;~var ch: channel of r; x, y: r; i: integer;~procedure by_value(z: r; var t: \
v); begin t := z.a; z.c := 'z'; z.a[1] := 9; t[2] := z.a[1] + t[3] end;~process p; var m: r; begin m.c := 'm'; m.a[2] := 7; ch ! m; ch ! (m) \
end;~process q; begin ch ? x; select ch ? y end end;~begin cobegin p; q coend; by_value(x, y.a); for i := 1 to 3 do write(x.a[i], y.a[i], ' '); \
writeln(x.c, y.c) end.|4 REF 0 4; 4 ADDR 0 0; 4 FLD 0; 4 LOAD 3; 4 STORE 3; 4 ADDR 0 0; 4 FLD 3; 4 LIT 122; 4 STORE 1; 4 ADDR 0 0; 4 FLD 0; 4 LIT 1; \
4 IDX 1 3 1; 4 LIT 9; 4 STORE 1; 4 REF 0 4; 4 LIT 2; 4 IDX 1 3 1; 4 ADDR 0 0; 4 FLD 0; 4 LIT 1; 4 IDX 1 3 1; 4 LOAD 1; 4 REF 0 4; 4 LIT 3; 4 IDX 1 3 \
1; 4 LOAD 1; 4 ADD; 4 STORE 1; 4 RET; 5 ADDR 0 0; 5 FLD 3; 5 LIT 109; 5 STORE 1; 5 ADDR 0 0; 5 FLD 0; 5 LIT 2; 5 IDX 1 3 1; 5 LIT 7; 5 STORE 1; 5 \
ADDR 1 0; 5 OBJ; 5 ADDR 0 0; 5 LOAD 4; 5 SEND 4; 5 ADDR 1 0; 5 OBJ; 5 ADDR 0 0; 5 LOAD 4; 5 SEND 4; 5 END; 6 ADDR 1 0; 6 OBJ; 6 ADDR 1 1; 6 RECV 4; 6 \
ADDR 1 0; 6 OBJ; 6 ADDR 1 5; 6 ARMR 4 60; 6 SEL 0 0; 6 JMP 61; 6 END; 7 ADDR 0 10; 7 OBJ; 7 NEW 1; 7 ADDR 0 11; 7 OBJ; 7 NEW 2; 7 COEND; 7 ADDR 0 1; \
7 LOAD 4; 7 ADDR 0 5; 7 FLD 0; 7 CALL 0 0; 7 ADDR 0 9; 7 LIT 1; 7 LIT 3; 7 FORB 0 96; 7 FORW; 7 ADDR 0 1; 7 FLD 0; 7 ADDR 0 9; 7 LOAD 1; 7 IDX 1 3 1; \
7 LOAD 1; 7 WRI 0; 7 ADDR 0 5; 7 FLD 0; 7 ADDR 0 9; 7 LOAD 1; 7 IDX 1 3 1; 7 LOAD 1; 7 WRI 0; 7 LIT 32; 7 WRC 0; 7 FORT 0 78; 7 ADDR 0 1; 7 FLD 3; 7 \
LOAD 1; 7 WRC 0; 7 ADDR 0 5; 7 FLD 3; 7 LOAD 1; 7 WRC 0; 7 WRNL; 7 END
program n;~process s; entry e(i: integer; var r: integer); entry f(j: integer);~var t: integer;~begin~  accept e(i: integer; var r: integer) do \
begin~    t := i;~    accept f(j: integer) do begin r := i + j; i := 0; t := t + i end;~    r := r + t~  end;~  select accept f(k: integer) do \
write(k) ; write('!') or terminate end~end;~process a; var z: integer; begin s.e(3, z); write(z) end;~process b; begin s.f(4); s.f(5) end;~begin \
cobegin s; a; b coend; writeln end.|5 ACC 0 1 2; 6 ADDR 0 0; 6 ADDR 0 1; 6 LOAD 1; 6 STORE 1; 7 ACC 1 3 1; 7 REF 0 2; 7 ADDR 0 1; 7 LOAD 1; 7 ADDR 0 \
3; 7 LOAD 1; 7 ADD; 7 STORE 1; 7 ADDR 0 1; 7 LIT 0; 7 STORE 1; 7 ADDR 0 0; 7 ADDR 0 0; 7 LOAD 1; 7 ADDR 0 1; 7 LOAD 1; 7 ADD; 7 STORE 1; 7 EACC; 8 \
REF 0 2; 8 REF 0 2; 8 LOAD 1; 8 ADDR 0 0; 8 LOAD 1; 8 ADD; 8 STORE 1; 5 EACC; 10 ARMA 1 4 1 35; 10 ARMX; 10 SEL 0 0; 10 ADDR 0 4; 10 LOAD 1; 10 WRI \
0; 10 EACC; 10 LIT 33; 10 WRC 0; 10 JMP 42; 11 END; 12 ADDR 1 0; 12 OBJ; 12 LIT 3; 12 ADDR 0 0; 12 ECALL 0 2; 12 ADDR 0 0; 12 LOAD 1; 12 WRI 0; 12 \
END; 13 ADDR 1 0; 13 OBJ; 13 LIT 4; 13 ECALL 1 1; 13 ADDR 1 0; 13 OBJ; 13 LIT 5; 13 ECALL 1 1; 13 END; 14 ADDR 0 0; 14 OBJ; 14 NEW 0; 14 ADDR 0 1; 14 \
OBJ; 14 NEW 1; 14 ADDR 0 2; 14 OBJ; 14 NEW 2; 14 COEND; 14 WRNL; 14 END
program main(input, output); const lim = 7; var j_: integer; y, ye: array[5..6] of record ch2, key2: char; end; v_w: char; var s81: semaphore; c_l: \
channel of synchronous; process clientt; var sum_: integer; ni, i, j41: array['m'..'n'] of integer; begin c_l ? any; if not eof then \
read(y[abs(i['m']) mod 2 + 5].ch2) end; process late68; var turn23: integer; begin sleep(55); for turn23 := 1 to 7 do begin pri select c_l ! any; or \
c_l ? any; or timeout 1 end; sleep(1) end end; begin initial(s81, 2); cobegin late68; clientt coend; write(ye[6].ch2:2); write(lim = j_) end.|1 ADDR \
1 11; 1 OBJ; 1 RECV 0; 1 EOF; 1 NOT; 1 JF 19; 1 ADDR 1 1; 1 ADDR 0 3; 1 LIT 109; 1 IDX 109 110 1; 1 LOAD 1; 1 ABS; 1 LIT 2; 1 MOD; 1 LIT 5; 1 ADD; 1 \
IDX 5 6 2; 1 FLD 0; 1 RDC; 1 END; 1 LIT 55; 1 SLEEP; 1 ADDR 0 0; 1 LIT 1; 1 LIT 7; 1 FORB 0 42; 1 FORW; 1 ADDR 1 11; 1 OBJ; 1 ARMS 0 36; 1 ADDR 1 11; \
1 OBJ; 1 ARMR 0 37; 1 LIT 1; 1 ARMT 38; 1 SEL 1 0; 1 JMP 39; 1 JMP 39; 1 JMP 39; 1 LIT 1; 1 SLEEP; 1 FORT 0 26; 1 END; 1 ADDR 0 10; 1 OBJ; 1 LIT 2; 1 \
SINI; 1 ADDR 0 13; 1 OBJ; 1 NEW 1; 1 ADDR 0 12; 1 OBJ; 1 NEW 0; 1 COEND; 1 ADDR 0 5; 1 LIT 6; 1 IDX 5 6 2; 1 FLD 0; 1 LOAD 1; 1 LIT 2; 1 WRC 1; 1 LIT \
7; 1 ADDR 0 0; 1 LOAD 1; 1 EQ; 1 WRB 0; 1 END
program test;~type~  rec_ = integer;~var~  y: integer;~  i93, buf17: integer;~resource pool;~  export enter, leave;~  var~    v_: integer;~    x4: \
array[0..4] of array[1..5] of integer;~    wy1, v_b, buf6: integer;~  var free94: integer; openn: boolean;~  guarded procedure latec(var in: integer) \
when (free94 > 0) or openn;~  begin null end;~  guarded procedure enter(var in: integer) when free94 < 1;~  begin~    free94 := free94 + 1;~    \
requeue latec(in)~  end;~  procedure leave;~  begin free94 := free94 - 1; openn := not openn end;~end;~process task_;~  const~    c = 's';~    lim67 \
= false;~  var~    sum_r, i0: integer;~    buf_a, j_g: integer;~    n68: integer;~begin~  sleep(1);~  sum_r := (ord('l') div 2) mod 10;~  case i0 <= \
859 of~    true, false:~      sleep(1);~  end;~  pool.enter(buf17)~end;~process pa;~  var~    i93: integer;~    i_, ir: boolean;~    tmp: \
char;~begin~  sleep(0);~  i93 := ((1 mod 9)) mod 997~end;~begin~  cobegin~    task_;~    pa~  coend;~  writeln('x=')~end.|14 ADDR 1 32; 14 LOAD 1; 14 \
LIT 0; 14 GT; 14 ADDR 1 33; 14 LOAD 1; 14 OR; 14 GRD 0; 15 RET; 16 ADDR 1 32; 16 LOAD 1; 16 LIT 1; 16 LT; 16 GRD 0; 18 ADDR 1 32; 18 ADDR 1 32; 18 \
LOAD 1; 18 LIT 1; 18 ADD; 18 STORE 1; 19 REF 0 0; 19 REQ 0 0; 20 RET; 22 ADDR 1 32; 22 ADDR 1 32; 22 LOAD 1; 22 LIT 1; 22 SUB; 22 STORE 1; 22 ADDR 1 \
33; 22 ADDR 1 33; 22 LOAD 1; 22 NOT; 22 STORE 1; 22 RET; 23 SCAN 0; 33 LIT 1; 33 SLEEP; 34 ADDR 0 0; 34 LIT 108; 34 LIT 2; 34 DIV; 34 LIT 10; 34 MOD; \
34 STORE 1; 35 ADDR 0 1; 35 LOAD 1; 35 LIT 859; 35 LE; 35 CEQ 1 52; 35 CEQ 0 52; 35 CERR; 37 LIT 1; 37 SLEEP; 35 JMP 55; 39 ADDR 1 2; 39 RCALL 0 1; \
40 END; 47 LIT 0; 47 SLEEP; 48 ADDR 0 0; 48 LIT 1; 48 LIT 9; 48 MOD; 48 LIT 997; 48 MOD; 48 STORE 1; 49 END; 52 ADDR 0 34; 52 OBJ; 52 NEW 3; 53 ADDR \
0 35; 53 OBJ; 53 NEW 4; 54 COEND; 55 WRS 0 0; 55 WRNL; 56 END
program p1; var sum_o: integer; n_z: char; var mutexo: semaphore; chan8: array[1..2] of channel of synchronous; ca: channel of boolean; procedure \
get1(var q49: char); var bufy: integer; begin sum_o := bufy end; begin initial(mutexo, 1); begin sum_o := 3; repeat write(12 * 5:2, (n_z)); sum_o := \
sum_o - 1 until (sum_o <= 0); end; sum_o := ((sum_o)) mod 7; if false or false and true then n_z := 'r' else begin get1(n_z); sum_o := ((-succ(15) + \
sum_o)) mod 10; end; write(sum_o - 0); write('a b') end.|1 ADDR 1 0; 1 ADDR 0 1; 1 LOAD 1; 1 STORE 1; 1 RET; 1 ADDR 0 2; 1 OBJ; 1 LIT 1; 1 SINI; 1 \
ADDR 0 0; 1 LIT 3; 1 STORE 1; 1 LIT 12; 1 LIT 5; 1 MUL; 1 LIT 2; 1 WRI 1; 1 ADDR 0 1; 1 LOAD 1; 1 WRC 0; 1 ADDR 0 0; 1 ADDR 0 0; 1 LOAD 1; 1 LIT 1; 1 \
SUB; 1 STORE 1; 1 ADDR 0 0; 1 LOAD 1; 1 LIT 0; 1 LE; 1 NOT; 1 JF 33; 1 TURN 12; 1 ADDR 0 0; 1 ADDR 0 0; 1 LOAD 1; 1 LIT 7; 1 MOD; 1 STORE 1; 1 LIT 0; \
1 LIT 0; 1 LIT 1; 1 AND; 1 OR; 1 JF 49; 1 ADDR 0 1; 1 LIT 114; 1 STORE 1; 1 JMP 61; 1 ADDR 0 1; 1 CALL 0 0; 1 ADDR 0 0; 1 LIT 15; 1 SUCC 0; 1 NEG; 1 \
ADDR 0 0; 1 LOAD 1; 1 ADD; 1 LIT 10; 1 MOD; 1 STORE 1; 1 ADDR 0 0; 1 LOAD 1; 1 LIT 0; 1 SUB; 1 WRI 0; 1 WRS 0 0; 1 END
program x_y;~type~  rec = record val1, ok: array['u'..'v'] of integer; n: boolean; end;~  vec = integer;~var~  xi, v: integer;~  i_m, buf9: \
rec;~function fun33: char;~  var~    n, y: integer;~begin~  buf9 := i_m;~  n := (+4) mod 2;~  fun33 := 'j'~end;~begin~  if i_m.ok[chr(64 + abs(229) \
mod 9)] mod 7 <> v then begin~    begin~      i_m.ok['v'] := (sqr((8) mod 23)) mod 2;~      sleep(2)~    end~  end;~  for v := 1 to 5 do begin~    \
buf9.n := ('v') <> ('e');~    buf9.n := true;~  end;~  if not eof then readln;~  buf9.ok['v'] := (2) mod 2;~  write('{no}':4, fun33);~  \
write('i')~end.|12 ADDR 1 7; 12 ADDR 1 2; 12 LOAD 5; 12 STORE 5; 13 ADDR 0 1; 13 LIT 4; 13 LIT 2; 13 MOD; 13 STORE 1; 14 ADDR 0 0; 14 LIT 106; 14 \
STORE 1; 15 RETF; 17 ADDR 0 2; 17 FLD 2; 17 LIT 64; 17 LIT 229; 17 ABS; 17 LIT 9; 17 MOD; 17 ADD; 17 CHR; 17 IDX 117 118 1; 17 LOAD 1; 17 LIT 7; 17 \
MOD; 17 ADDR 0 1; 17 LOAD 1; 17 NE; 17 JF 43; 19 ADDR 0 2; 19 FLD 2; 19 LIT 118; 19 IDX 117 118 1; 19 LIT 8; 19 LIT 23; 19 MOD; 19 SQR; 19 LIT 2; 19 \
MOD; 19 STORE 1; 20 LIT 2; 20 SLEEP; 23 ADDR 0 1; 23 LIT 1; 23 LIT 5; 23 FORB 0 59; 23 FORW; 24 ADDR 0 7; 24 FLD 4; 24 LIT 118; 24 LIT 101; 24 NE; 24 \
STORE 1; 25 ADDR 0 7; 25 FLD 4; 25 LIT 1; 25 STORE 1; 23 FORT 0 47; 27 EOF; 27 NOT; 27 JF 63; 27 RDNL; 28 ADDR 0 7; 28 FLD 2; 28 LIT 118; 28 IDX 117 \
118 1; 28 LIT 2; 28 LIT 2; 28 MOD; 28 STORE 1; 29 LIT 4; 29 WRS 0 1; 29 CALL 0 0; 29 WRC 0; 30 LIT 105; 30 WRC 0; 31 END
program x_y(output);~const~  lim_m = 'z';~type~  typ2 = array[1..4] of char;~var~  i: integer;~  ii, buf: char;~  n3: typ2;~begin~  if not eof then \
read(i);~  i := abs(i);~  write(' it''s ')~end.|11 EOF; 11 NOT; 11 JF 5; 11 ADDR 0 0; 11 RDI; 12 ADDR 0 0; 12 ADDR 0 0; 12 LOAD 1; 12 ABS; 12 STORE \
1; 13 WRS 0 0; 14 END
program a;~var~  i_: integer;~  n: char;~procedure act_r(a, bq: integer);~  type~    typ_ = array[1..4] of integer;~  var~    sum, y, py73: integer;~ \
   buf36: typ_;~begin~  if not not true then sleep(abs(1) mod 3);~  n := pred('B');~  sleep(2)~end;~process p_;~  var~    j19: integer;~    n50: \
integer;~    x, qna: char;~begin~  for j19 := 1 to 2 do begin~    i_ := 345;~    i_ := 4;~    begin~      n50 := 0;~      while (n50 < 1) do begin~   \
     n50 := n50 + 1;~        writeln('{no}');~        if (n50 >= 0) or odd(j19) then begin~          sleep(0)~        end~      end~    end~  end;~  \
x := 'o';~  act_r(1 mod 10 - 1, j19);~  act_r((0) - 0, 1)~end;~process late22;~  var turn: integer;~begin~  sleep(27);~  for turn := 1 to 7 do begin~ \
   sleep(1)~  end~end;~begin~  cobegin~    late22;~    p_~  coend~end.|12 LIT 1; 12 NOT; 12 NOT; 12 JF 9; 12 LIT 1; 12 ABS; 12 LIT 3; 12 MOD; 12 \
SLEEP; 13 ADDR 1 1; 13 LIT 66; 13 PRED 2; 13 STORE 1; 14 LIT 2; 14 SLEEP; 15 RET; 22 ADDR 0 0; 22 LIT 1; 22 LIT 2; 22 FORB 0 56; 22 FORW; 23 ADDR 1 \
0; 23 LIT 345; 23 STORE 1; 24 ADDR 1 0; 24 LIT 4; 24 STORE 1; 26 ADDR 0 1; 26 LIT 0; 26 STORE 1; 27 ADDR 0 1; 27 LOAD 1; 27 LIT 1; 27 LT; 27 JF 55; \
28 ADDR 0 1; 28 ADDR 0 1; 28 LOAD 1; 28 LIT 1; 28 ADD; 28 STORE 1; 29 WRS 0 0; 29 WRNL; 30 ADDR 0 1; 30 LOAD 1; 30 LIT 0; 30 GE; 30 ADDR 0 0; 30 LOAD \
1; 30 ODD; 30 OR; 30 JF 54; 31 LIT 0; 31 SLEEP; 27 TURN 30; 22 FORT 0 20; 36 ADDR 0 2; 36 LIT 111; 36 STORE 1; 37 LIT 1; 37 LIT 10; 37 MOD; 37 LIT 1; \
37 SUB; 37 ADDR 0 0; 37 LOAD 1; 37 CALL 0 1; 38 LIT 0; 38 LIT 0; 38 SUB; 38 LIT 1; 38 CALL 0 1; 39 END; 43 LIT 27; 43 SLEEP; 44 ADDR 0 0; 44 LIT 1; \
44 LIT 7; 44 FORB 0 83; 44 FORW; 45 LIT 1; 45 SLEEP; 44 FORT 0 79; 47 END; 50 ADDR 0 3; 50 OBJ; 50 NEW 2; 51 ADDR 0 2; 51 OBJ; 51 NEW 1; 52 COEND; 53 \
END
program x_y(output);~const~  sizek = 7;~type~  t_ = record val1: integer; ch1, ch2: char; x2: integer; end;~var~  v, sum_k: integer;~  x6, v_, bufx: \
record ch2, val: t_; y: boolean; end;~  v_u, vg, xp: t_;~  tmp83, nv9: integer;~var~  link: array[1..2] of channel of array[1..4] of integer;~process \
p;~  var~    i_, n9: integer;~    sum78, i, n_: array['m'..'m'] of array[-2..1] of integer;~    j0, sum3, j7: t_;~begin~  sleep(1);~  sleep(0);~  \
v_u.x2 := ((v_.val.x2)) mod 100~end;~process p_w(be: boolean);~  var~    buf: integer;~    buf23, x: array['c'..'e'] of array[5..7] of char;~begin~  \
v_.y := random(7) + 2 > 0 - sum_k;~  sleep(1);~  sleep(0);~  if not eof then read(vg.ch2)~end;~process late;~  var turn_x: integer;~begin~  \
sleep(51);~  for turn_x := 1 to 3 do begin~    sleep(1)~  end~end;~begin~  v_u := xp;~  for tmp83 := 0 downto -2 do~    v_.val.x2 := (+sizek - \
bufx.ch2.x2 + tmp83) mod 7;~  cobegin~    p;~    p_w(eoln and true);~    late~  coend~end.|19 LIT 1; 19 SLEEP; 20 LIT 0; 20 SLEEP; 21 ADDR 1 29; 21 \
FLD 3; 21 ADDR 1 11; 21 FLD 4; 21 FLD 3; 21 LOAD 1; 21 LIT 100; 21 MOD; 21 STORE 1; 22 END; 28 ADDR 1 11; 28 FLD 8; 28 LIT 7; 28 RAND; 28 LIT 2; 28 \
ADD; 28 LIT 0; 28 ADDR 1 1; 28 LOAD 1; 28 SUB; 28 GT; 28 STORE 1; 29 LIT 1; 29 SLEEP; 30 LIT 0; 30 SLEEP; 31 EOF; 31 NOT; 31 JF 36; 31 ADDR 1 33; 31 \
FLD 2; 31 RDC; 32 END; 36 LIT 51; 36 SLEEP; 37 ADDR 0 0; 37 LIT 1; 37 LIT 3; 37 FORB 0 47; 37 FORW; 38 LIT 1; 38 SLEEP; 37 FORT 0 43; 40 END; 42 ADDR \
0 29; 42 ADDR 0 37; 42 LOAD 4; 42 STORE 4; 43 ADDR 0 41; 43 LIT 0; 43 LIT 2; 43 NEG; 43 FORB 1 74; 43 FORW; 44 ADDR 0 11; 44 FLD 4; 44 FLD 3; 44 LIT \
7; 44 ADDR 0 20; 44 FLD 0; 44 FLD 3; 44 LOAD 1; 44 SUB; 44 ADDR 0 41; 44 LOAD 1; 44 ADD; 44 LIT 7; 44 MOD; 44 STORE 1; 43 FORT 1 57; 46 ADDR 0 45; 46 \
OBJ; 46 NEW 0; 47 ADDR 0 46; 47 OBJ; 47 EOLN; 47 LIT 1; 47 AND; 47 NEW 1; 48 ADDR 0 47; 48 OBJ; 48 NEW 2; 49 COEND; 50 END
program a;~type~  vecq = integer;~  typ76 = vecq;~var~  x_: integer;~  tmp_, tmp: char;~  n, ia, i1: typ76;~  wn: record z2, ch: vecq; key2, val1: \
record key, x: typ76 end; end;~procedure q9;~begin~  wn.ch := (3 * 14 - wn.val1.x - clock) mod 100;~  if 5 + wn.val1.key <> ord(tmp_) - 13 then~    \
tmp_ := (('q'))~  else~    if false or false then begin~      wn.val1.key := 2;~      begin~        write('(*')~      end~    end~end;~begin~  \
wn.key2.x := (14 * 1) mod 7;~  n := (2) mod 100;~  tmp_ := 'i'~end.|12 ADDR 1 6; 12 FLD 1; 12 LIT 3; 12 LIT 14; 12 MUL; 12 ADDR 1 6; 12 FLD 4; 12 FLD \
1; 12 LOAD 1; 12 SUB; 12 CLOCK; 12 SUB; 12 LIT 100; 12 MOD; 12 STORE 1; 13 LIT 5; 13 ADDR 1 6; 13 FLD 4; 13 FLD 0; 13 LOAD 1; 13 ADD; 13 ADDR 1 1; 13 \
LOAD 1; 13 LIT 13; 13 SUB; 13 NE; 13 JF 31; 14 ADDR 1 1; 14 LIT 113; 14 STORE 1; 13 JMP 41; 16 LIT 0; 16 LIT 0; 16 OR; 16 JF 41; 17 ADDR 1 6; 17 FLD \
4; 17 FLD 0; 17 LIT 2; 17 STORE 1; 19 WRS 0 0; 22 RET; 24 ADDR 0 6; 24 FLD 2; 24 FLD 1; 24 LIT 14; 24 LIT 1; 24 MUL; 24 LIT 7; 24 MOD; 24 STORE 1; 25 \
ADDR 0 3; 25 LIT 2; 25 LIT 100; 25 MOD; 25 STORE 1; 26 ADDR 0 1; 26 LIT 105; 26 STORE 1; 27 END
program a; const k = 3; var i: integer; b: boolean; begin i := -k * (i + 2) - abs(i) mod 4; b := not b or (i < 3) end.|1 ADDR 0 0; 1 LIT 3; 1 ADDR 0 \
0; 1 LOAD 1; 1 LIT 2; 1 ADD; 1 MUL; 1 NEG; 1 ADDR 0 0; 1 LOAD 1; 1 ABS; 1 LIT 4; 1 MOD; 1 SUB; 1 STORE 1; 1 ADDR 0 1; 1 ADDR 0 1; 1 LOAD 1; 1 NOT; 1 \
ADDR 0 0; 1 LOAD 1; 1 LIT 3; 1 LT; 1 OR; 1 STORE 1; 1 END
program a; var i: integer; b: boolean; c: char; begin c := succ(c); b := pred(b); i := succ(ord(c)); c := chr(sqr(i)); b := eof; i := random(i) \
end.|1 ADDR 0 2; 1 ADDR 0 2; 1 LOAD 1; 1 SUCC 2; 1 STORE 1; 1 ADDR 0 1; 1 ADDR 0 1; 1 LOAD 1; 1 PRED 1; 1 STORE 1; 1 ADDR 0 0; 1 ADDR 0 2; 1 LOAD 1; \
1 SUCC 0; 1 STORE 1; 1 ADDR 0 2; 1 ADDR 0 0; 1 LOAD 1; 1 SQR; 1 CHR; 1 STORE 1; 1 ADDR 0 1; 1 EOF; 1 STORE 1; 1 ADDR 0 0; 1 ADDR 0 0; 1 LOAD 1; 1 \
RAND; 1 STORE 1; 1 END
program a; type r = record x: integer; y: array [0..1] of char end; var p: array [1..3, false..true] of r; q: r; begin p[2, true].y[1] := 'c'; q := \
(p[1, false]); q.x := p[1][true].x end.|1 ADDR 0 0; 1 LIT 2; 1 IDX 1 3 6; 1 LIT 1; 1 IDX 0 1 3; 1 FLD 1; 1 LIT 1; 1 IDX 0 1 1; 1 LIT 99; 1 STORE 1; 1 \
ADDR 0 18; 1 ADDR 0 0; 1 LIT 1; 1 IDX 1 3 6; 1 LIT 0; 1 IDX 0 1 3; 1 LOAD 3; 1 STORE 3; 1 ADDR 0 18; 1 FLD 0; 1 ADDR 0 0; 1 LIT 1; 1 IDX 1 3 6; 1 LIT \
1; 1 IDX 0 1 3; 1 FLD 0; 1 LOAD 1; 1 STORE 1; 1 END
program a; var b: boolean; begin write('ab', 'c', 1: 5, 'x': 2, b, 'de': 7); writeln; write('ab') end.|1 WRS 0 0; 1 LIT 99; 1 WRC 0; 1 LIT 1; 1 LIT \
5; 1 WRI 1; 1 LIT 120; 1 LIT 2; 1 WRC 1; 1 ADDR 0 0; 1 LOAD 1; 1 WRB 0; 1 LIT 7; 1 WRS 1 1; 1 WRNL; 1 WRS 2 0; 1 END
program a; var i: integer; c: char; begin read(i, c); readln; readln(i) end.|1 ADDR 0 0; 1 RDI; 1 ADDR 0 1; 1 RDC; 1 RDNL; 1 ADDR 0 0; 1 RDI; 1 RDNL; \
1 END
program a; var b: boolean; begin if b then write(1); if b then write(2) else write(3) end.|1 ADDR 0 0; 1 LOAD 1; 1 JF 5; 1 LIT 1; 1 WRI 0; 1 ADDR 0 \
0; 1 LOAD 1; 1 JF 11; 1 LIT 2; 1 WRI 0; 1 JMP 13; 1 LIT 3; 1 WRI 0; 1 END
program a; var b: boolean; begin while b do write(1); repeat write(1) until b; repeat write(2) forever end.|1 ADDR 0 0; 1 LOAD 1; 1 JF 6; 1 LIT 1; 1 \
WRI 0; 1 TURN 0; 1 LIT 1; 1 WRI 0; 1 ADDR 0 0; 1 LOAD 1; 1 NOT; 1 JF 13; 1 TURN 6; 1 LIT 2; 1 WRI 0; 1 TURN 13; 1 END
program a; var i: integer; begin for i := 1 to 3 do write(i); for i := 3 downto 1 do null end.|1 ADDR 0 0; 1 LIT 1; 1 LIT 3; 1 FORB 0 9; 1 FORW; 1 \
ADDR 0 0; 1 LOAD 1; 1 WRI 0; 1 FORT 0 4; 1 ADDR 0 0; 1 LIT 3; 1 LIT 1; 1 FORB 1 15; 1 FORW; 1 FORT 1 13; 1 END
program a; var i: integer; begin case i of 1, 2: write(1); 3: case i of -4: write(2) end end end.|1 ADDR 0 0; 1 LOAD 1; 1 CEQ 1 6; 1 CEQ 2 6; 1 CEQ 3 \
9; 1 CERR; 1 LIT 1; 1 WRI 0; 1 JMP 17; 1 ADDR 0 0; 1 LOAD 1; 1 CEQ -4 13; 1 CERR; 1 LIT 2; 1 WRI 0; 1 JMP 16; 1 JMP 17; 1 END
program n;~var g: integer;~procedure a(var v: integer);~  procedure b;~    procedure c; begin v := v + g; a(g) end;~  begin c end;~begin b \
end;~begin a(g) end.|5 REF 2 0; 5 REF 2 0; 5 LOAD 1; 5 ADDR 3 0; 5 LOAD 1; 5 ADD; 5 STORE 1; 5 ADDR 3 0; 5 CALL 2 3; 5 RET; 6 CALL 0 0; 6 RET; 7 \
CALL 1 0; 7 RET; 8 ADDR 0 0; 8 CALL 2 0; 8 END
program e;~process type w; entry put(n: integer); begin accept put(n: integer) do null end;~var t: array[1..2] of w;~process c; begin t[2].put(3) \
end;~begin cobegin t[1]; t[2]; c coend end.|2 ACC 0 0 1; 2 EACC; 2 END; 4 ADDR 1 0; 4 LIT 2; 4 IDX 1 2 1; 4 OBJ; 4 LIT 3; 4 ECALL 0 1; 4 END; 5 \
ADDR 0 0; 5 LIT 1; 5 IDX 1 2 1; 5 OBJ; 5 NEW 0; 5 ADDR 0 0; 5 LIT 2; 5 IDX 1 2 1; 5 OBJ; 5 NEW 0; 5 ADDR 0 2; 5 OBJ; 5 NEW 1; 5 COEND; 5 END
program s; var c: channel of synchronous; process p; begin c ! any end; process q; begin c ? any end; begin cobegin p; q coend end.|1 ADDR 1 0; 1 \
OBJ; 1 SEND 0; 1 END; 1 ADDR 1 0; 1 OBJ; 1 RECV 0; 1 END; 1 ADDR 0 1; 1 OBJ; 1 NEW 0; 1 ADDR 0 2; 1 OBJ; 1 NEW 1; 1 COEND; 1 END
";

/// The bytes that a text of the table stands for.
fn bytes_of(alloc: Global, text: &str) -> Result<Vec<u8>, Memory> {
    let mut bytes = Vec::new(alloc);
    for b in text.as_bytes() {
        bytes.push(if *b == b'~' { b'\n' } else { *b })?;
    }
    Ok(bytes)
}

/// Adds what a line of a code text has behind its address, as the table has it.
fn add_instruction(text: &mut Vec<u8>, line: &str) -> Result<(), Memory> {
    for (at, word) in line.split_whitespace().skip(1).enumerate() {
        if at > 0 {
            text.push(b' ')?;
        }
        text.extend_from_slice(word.as_bytes())?;
    }
    Ok(())
}

/// The instructions of an image, as the table has them; nothing where one lacks its line.
fn shown(alloc: Global, image: &Image) -> Result<Vec<u8>, Memory> {
    let mut text = Vec::new(alloc);
    if image.lines.len() != image.code.len() {
        return Ok(text);
    }
    let printed = print_code(alloc, image)?;
    let Ok(lines) = str::from_utf8(&printed) else {
        return Ok(text);
    };
    for (at, line) in lines.lines().enumerate() {
        if at > 0 {
            text.extend_from_slice(b"; ")?;
        }
        add_instruction(&mut text, line)?;
    }
    Ok(text)
}

/// Whether a text has the code that its line of the table says.
pub(super) fn is_coded(alloc: Global, line: &str) -> Result<bool, Memory> {
    let Some((text, owed)) = line.split_once('|') else {
        return Ok(false);
    };
    match image_of(alloc, &bytes_of(alloc, text)?) {
        Some(Ok(image)) => Ok(shown(alloc, &image)?.as_slice() == owed.as_bytes()),
        Some(Err(_)) | None => Ok(false),
    }
}

#[test]
fn texts_have_their_code(rt: HostRuntime) {
    for line in CODES.lines() {
        assert!(rt; is_coded(rt.alloc(), line) == Ok(true), "in {line}");
    }
}
