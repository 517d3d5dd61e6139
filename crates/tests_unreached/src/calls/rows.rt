// Reads and writes that fail in mid-stream, or move few bytes at once, with what a call leaves.

pub(super) const ROWS: &str = "\
# an input of words, byte by byte
MODULE M; BEGIN Write(7); WriteLn END M.
< 1 22$
pieces 1
= 0|79| 7$|procedure 0 M frame 20$round 0 cost 5 bound 5$total cost 5 bound 5 code 63$ended steps \
    18 reads 0$
# an input that fails
MODULE M; BEGIN Write(7); WriteLn END M.
< 1 2
fails input 2
= 5|-||fault read input$
pieces 1
fails input 2
= 5|-||fault read input$| 2
pieces 1
fails input 4
= 5|-||fault read input$
pieces 1
fails input 5
= 0|79| 7$|procedure 0 M frame 20$round 0 cost 5 bound 5$total cost 5 bound 5 code 63$ended steps \
    18 reads 0$
# each call of the outside fails
MODULE M; BEGIN Write(7); WriteLn END M.
< 1 2
fails folder 3
= 0|79| 7$|procedure 0 M frame 20$round 0 cost 5 bound 5$total cost 5 bound 5 code 63$ended steps \
    18 reads 0$
pieces 1
fails out 1
= 5|79||fault write out$
pieces 1
fails out 2
= 5|79| |fault write out$
pieces 1
fails out 3
= 5|79| 7|fault write out$
pieces 1
fails out 4
= 0|79| 7$|procedure 0 M frame 20$round 0 cost 5 bound 5$total cost 5 bound 5 code 63$ended steps \
    18 reads 0$
room 0
= 5|79||fault write out$
room 2
= 5|79| 7|fault write out$
room 3
= 0|79| 7$|procedure 0 M frame 20$round 0 cost 5 bound 5$total cost 5 bound 5 code 63$ended steps \
    18 reads 0$
pieces 1
fails notes 1
= 5|79| 7$|
pieces 1
fails notes 12
= 5|79| 7$|procedure 0
pieces 1
fails notes 98
= 5|79| 7$|procedure 0 M frame 20$round 0 cost 5 bound 5$total cost 5 bound 5 code 63$ended steps \
    18 reads 0
pieces 1
fails notes 99
= 0|79| 7$|procedure 0 M frame 20$round 0 cost 5 bound 5$total cost 5 bound 5 code 63$ended steps \
    18 reads 0$
# each call that compiling makes fails
MODULE M; BEGIN Write(7); WriteLn END M.
words compile M.ob
pieces 1
fails out 12
= 5|79|procedure 0|fault write out$
pieces 1
fails out 75
= 5|79|procedure 0 M frame 20$round 0 cost 5 bound 5$total cost 5 bound 5 code 63|fault write out$
room 75
= 0|79|procedure 0 M frame 20$round 0 cost 5 bound 5$total cost 5 bound 5 code 63$|
# a refused source, and notes fails
MODULE M; BEGIN x := 1 END M.
< 1 2
pieces 1
fails notes 12
= 3|-||fault rule |1 2
# a certificate that is applied, in pieces
MODULE M; BEGIN Write(7); WriteLn END M.
words apply M.ob
< {'cost':'size','kind':'pra-certificate','procs':[{'aggregates':0,'args':0,'blocks':[[0,\
    [['write',0],['line']],['return']]],'bound':5,'caps':[],'mems':[],'routes':[[0]],'ties':[],\
    'total':5,'vars':[['constant',7]]}],'version':1}$
pieces 7
= 0|79|procedure 0 M frame 20$routes cost 5 bound 5$total cost 5 bound 5 code 63$|
# calls fail over a module of all forms
MODULE Samples;
TYPE Row = ARRAY 16 OF INTEGER;
VAR n, i, x, y, z: INTEGER; a: Row;
PROCEDURE Multiply(x, y: INTEGER; VAR z: INTEGER);
BEGIN z := 0;
  WHILE x > 0 DO
    IF x MOD 2 = 1 THEN z := z + y END;
    y := 2 * y; x := x DIV 2
  END
END Multiply;
PROCEDURE Divide(x, y: INTEGER; VAR q, r: INTEGER);
VAR w: INTEGER;
BEGIN r := x; q := 0; w := y;
  WHILE w <= r DO w := 2 * w END;
  WHILE w > y DO
    q := 2 * q; w := w DIV 2;
    IF w <= r THEN r := r - w; q := q + 1 END
  END
END Divide;
PROCEDURE Find(VAR a: Row; n, x: INTEGER; VAR at: INTEGER);
VAR lo, hi, m: INTEGER;
BEGIN lo := 0; hi := n;
  WHILE lo < hi DO
    m := (lo + hi) DIV 2;
    IF a[m] < x THEN lo := m + 1 ELSE hi := m END
  END;
  at := lo
END Find;
BEGIN
  Read(x); Read(y); Multiply(x, y, z); Write(z);
  Divide(x, y, z, n); Write(z); Write(n); WriteLn;
  Read(n); i := 0;
  WHILE i < n DO Read(a[i]); i := i + 1 END;
  Read(x); Find(a, n, x, i); Write(i); WriteLn
END Samples.
< 25 7 6 2 3 5 8 13 21 8
words run M.ob --rounds 0
pieces 1
fails input 5
= 5|-||fault read input$| 6 2 3 5 8 13 21 8
pieces 1
fails out 4
= 5|..| 17|fault write out$
room 5
= 5|..| 175 |fault write out$
";
