//! Scripts with the text of their replies.

/// A sum of two vectors by two groups of two items each.
pub const SUM: &str = "buffer a 16
buffer b 16
buffer c 16
write a 0 01000000ffffff7fffffffff0a000000
write b 0 0200000001000000ffffffff14000000
program p 1
__kernel void f(__global const int *a, __global const int *b, __global int *c) { ulong i = get_global_id(0); c[i] = a[i] + b[i]; }
kernel k p f
arg k 0 buffer a
arg k 1 buffer b
arg k 2 buffer c
launch k 4 2
read c 0 16
";

/// Its replies.
pub const SUM_REPLIES: &str = "ok
ok
ok
ok
ok
ok
ok
ok
ok
ok
clean
data 0300000000000080feffffff1e000000
";

/// A launch whose items race.
pub const RACE: &str = "buffer a 16
program p 1
__kernel void f(__global int *a) { int x; int i = get_local_id(0); a[i] = i; if (i < 3) x = a[i + 1]; }
kernel k p f
arg k 0 buffer a
launch k 4 4
read a 0 16
";

/// Its replies.
pub const RACE_REPLIES: &str = "ok
ok
ok
ok
fault 1 race item 0 load item 1 store buffer a byte 4 schedule 0*2 1*1
data 00000000000000000000000000000000
";

/// Items of two groups that draw places, in a script of version 3.
pub const ORDERS: &str = "clsim 3
buffer a 12
program p 1
__kernel void f(__global int *a) { a[1 + atomic_inc(&a[0])] = 7 + get_global_id(0); }
kernel k p f
arg k 0 buffer a
launch k 2 1 orders
read a 0 12
";

/// Its replies.
pub const ORDERS_REPLIES: &str = "ok
ok
ok
ok
ordered
data 020000000700000008000000
";

/// Buffers of which three are refused.
pub const REFUSED: &str = "buffer a 1048576
buffer a 4
buffer b 1048577
buffer c 0
";

/// Its replies.
pub const REFUSED_REPLIES: &str = "ok
refused 1 NameInUse
refused 3 BadSize
refused 3 BadSize
";
