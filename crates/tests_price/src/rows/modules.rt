// Procedures of two modules as they are selected and tidied: of one in which eight scalars live
// over a division, besides its dividend, and of one that reads, multiplies, divides and looks a
// number up.

/// Their rows.
pub(crate) const MODULES: &str = "# a call alone
code proc 0 0 2; push v0; call 1; return
weights both
# eight scalars that live over a division
code proc 1 0 param 0 plain plain plain plain plain plain plain 1 1 1 1 1 1 1 0 3 plain plain 0 \
plain 1 plain plain; copy v23 v0; copy v1 v23; add v1 v8; copy v2 v1; add v2 v9; copy v3 v2; add \
v3 v10; copy v4 v3; add v4 v11; copy v5 v4; add v5 v12; copy v6 v5; add v6 v13; copy v7 v6; add \
v7 v14; jump 1; loops 1; cmp v0 v15; branch g 2 3; loops 1; divmod v17 v18 v23 v16; cmpset l v20 \
v18 v19; sub v17 v20; add v17 v1; copy v23 v17; copy v22 v0; sub v22 v21; copy v0 v22; jump 1; \
add v23 v1; add v23 v2; add v23 v3; add v23 v4; add v23 v5; add v23 v6; add v23 v7; add v23 v0; \
write v23; return
weights both
costs fall
bounds rise
# the body of a module that calls three procedures
code proc 0 0 plain plain plain plain plain plain plain plain plain plain plain plain plain 0 \
plain plain plain plain plain 1 plain plain plain plain plain plain; read v0; store v0 global 2; \
read v1; store v1 global 3; load v2 global 2; load v3 global 3; addr v4 global 4; push v2; push \
v3; push v4; call 1; load v5 global 4; write v5; load v6 global 2; load v7 global 3; addr v8 \
global 4; addr v9 global 0; push v6; push v7; push v8; push v9; call 2; load v10 global 4; write \
v10; load v11 global 0; write v11; line; read v12; store v12 global 0; store v13 global 1; jump \
1; loops 1; load v14 global 1; load v15 global 0; cmp v14 v15; branch l 2 3; loops 1; load v16 \
global 1; check v16 16; read v17; store v17 global 5 v16; load v18 global 1; add v18 v19; store \
v18 global 1; jump 1; read v20; store v20 global 2; addr v21 global 5; load v22 global 0; load \
v23 global 2; addr v24 global 1; push v21; push v22; push v23; push v24; call 3; load v25 global \
1; write v25; line; return
weights both
# it multiplies
code proc 3 0 param 0 param 1 param 2 0 0 2 plain plain plain 0 plain 1 plain plain 2 plain \
plain plain 0 plain; store v3 via v2; jump 1; loops 1; cmp v0 v4; branch g 2 5; loops 1; copy v6 \
v0; divmod v7 v8 v6 v5; cmpset l v10 v8 v9; neg v10; and v10 v5; add v8 v10; cmp v8 v11; branch \
e 3 4; loops 1; load v12 via v2; add v12 v1; store v12 via v2; jump 4; loops 1; set v13 2; mul \
v13 v1; copy v1 v13; copy v15 v0; divmod v16 v17 v15 v14; cmpset l v19 v17 v18; sub v16 v19; \
copy v0 v16; jump 1; return
weights both
# it divides
code proc 4 0 param 0 param 1 param 2 param 3 0 plain plain plain plain 2 plain plain plain 0 \
plain plain plain plain 1; store v0 via v3; store v4 via v2; copy v10 v1; jump 1; loops 1; load \
v5 via v3; cmp v10 v5; branch le 2 3; loops 1; set v6 2; mul v6 v10; copy v10 v6; jump 1; jump \
4; loops 1; cmp v10 v1; branch g 5 8; loops 1; load v7 via v2; set v8 2; mul v8 v7; store v8 via \
v2; divmod v11 v12 v10 v9; cmpset l v14 v12 v13; sub v11 v14; copy v10 v11; load v15 via v3; cmp \
v10 v15; branch le 6 7; loops 1; load v16 via v3; sub v16 v10; store v16 via v3; load v17 via \
v2; add v17 v18; store v17 via v2; jump 7; loops 1; jump 4; return
weights both
# it looks a number up in a row
code proc 4 0 param 0 param 1 param 2 param 3 plain plain plain 2 plain 0 plain plain 1 plain; \
set v4 0; copy v5 v1; jump 1; loops 1; cmp v4 v5; branch l 2 6; loops 1; copy v6 v4; add v6 v5; \
divmod v13 v8 v6 v7; cmpset l v10 v8 v9; sub v13 v10; check v13 16; load v11 via v0 v13; cmp v11 \
v2; branch l 3 4; loops 1; add v13 v12; copy v4 v13; jump 5; loops 1; copy v5 v13; jump 5; loops \
1; jump 1; store v4 via v3; return
weights both
";
