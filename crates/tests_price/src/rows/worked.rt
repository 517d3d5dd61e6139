// Two codes, worked by hand, by size.
//
// A Set, an Add of a constant and a Write: v0 is there from layer 2 to layer 5, where Write wants
// it in EAX, and the constant is there at layer 3 alone, in a register or as an immediate of 8
// bits, which costs a byte. To store the number of the Set costs two bytes, an operand in memory
// one, to load or to store v0 three, to move it two, and to set a register to the constant five.
//
// Register r at layer n has the number 6 n + r. Without prices the immediate alone costs. At a low
// price of EAX at layer 3 v0 stays there and pays it, which the value loses again. At a high one v0
// is in another register up to layer 4 and then moves to EAX for two bytes: 1024 and 2048, less
// 4096. EAX at layer 5 is paid whatever it costs; a register that nobody wants, or a layer where v0
// is not yet, takes its price from the value.
//
// And a variable that is set in one block and written in the next: from layer 2 of block 0, which
// has four, to layer 1 of block 1; one tie joins its two strands. Without prices it never moves; at
// a price of 4096 of EAX at layer 0 of block 1 it is cheaper in ECX, from which it moves to EAX for
// two bytes, 2048.

/// Their rows.
pub(crate) const WORKED: &str = "# a Set, an Add and a Write
code proc 0 0 plain 4; set v0 3; add v0 v1; write v0; return
weights size
least 1 reached
first 1 1 [] [1, 0] [0, 0, 0, 0] [7]
@
value 1024
path 0 ..== is 0 [0, 0, 0, 0]
path 0 ..=5:1= is none
path 0 ..=5:62= is 0 [0, 0, 0, 0]
path 0 ..=3:55= is 2048 [3, 3, 3, 0]
path 0 .0=3:63= is 6144 [6, 6, 6, 0]
path 0 ..=3:63=0 is none
path 0 6.== is 5120 [6, 0, 0, 0]
path 0 .8== is 3072 [0, 0, 0, 8]
path 0 .1== is none
path 1 ..== is 1024 [7]
path 1 .0=3:62= is 5120 [0]
path 1 .0=3:1= is none
path 1 6.== is none
@
caps 18:512
value 1024
@
caps 18:2048
value 1024
@
caps 18:4096
value -1024
@
caps 30:4096
value 1024
@
caps 21:4096
value -3072
@
caps 6:512
value 512
# a plan over one tie
code proc 0 0 plain; set v0 3; jump 1; write v0; return
weights size
@
found [0] [0, 1]
@
caps 24:4096
found [1] [1, 0]
";
