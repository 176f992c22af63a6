//! Statements `when`, and the bounds of their variables.
use crate::told::told;

// A row is a statement, ` => `, and the bound of each variable in order: its base, and `[]` after that for an index and `[:]` for a
// slice; or the variable that has none.
const ROWS: &str = "\
when (i, j: some int; a[i] == b[j]) ; => a[] b[]
when (i, j: some int; s[i:j] == \"ab\") ; => s[:] s[:]
when (i: all int; a[i] > 0) ; => a[]
when (i: all int; b[i] < b[i + 1]) ; => b[]
when (i: each int; b[i] != 2) ; => b[]
when (i: some int; i > 0) ; => unbounded i
when (i: some int; s[a[i]:i] == s) ; => s[:]
when (i: some int; a[(i)] == 1) ; => unbounded i
when (i: some int; r.i[i] == 1) ; => r.i[]
when (i: some int; s[i:] == s) ; => no statement
when (i: some int; s[i:3] == s) ; => s[:]
when (i: some int; s[3:i] == s) ; => s[:]
when (i: some int; s[i:i] == s) ; => s[:]
when (i: some int; s[i + 1:i - 1] == s) ; => unbounded i
when (i: some int; a[i] == b[i]) ; => a[]
when (i: some int; b[i] == a[i]) ; => b[]
when (i: some int; s[0:i] == s && a[i] == 1) ; => s[:]
when (i: some int; a[i] == 1 && s[0:i] == s) ; => a[]
when (i: some int; a[i][i] == 1) ; => a[]
when (i: some int; a[b[i]][i] == 1) ; => b[]
when (i: some int; a[b[i]] == 1) ; => b[]
when (i: some int; i[i] == 1) ; => unbounded i
when (i: some int; (i)[i] == 1) ; => unbounded i
when (i: some int; i.a[i] == 1) ; => unbounded i
when (i: some int; i(1)[i] == 1) ; => unbounded i
when (i: some int; f(i)[i] == 1) ; => unbounded i
when (i: some int; f(1)[i] == 1) ; => f(#)[]
when (i: some int; f(i, a[i])) ; => a[]
when (i: some int; \"abc\"[i] == 'a') ; => #[]
when (i: some int; (a)[i] == 1) ; => (a)[]
when (i: some int; a[1:2][i] == 1) ; => a[#:#][]
when (i: some int; a.b[0].c[i] == 1) ; => a.b[#].c[]
when (i: some int; def(a[i])) ; => a[]
when (i: some int; !def(a[i])) ; => a[]
when (i: some int; string(a[i]) == s) ; => a[]
when (i: some int; (a[i] == 1)) ; => a[]
when (i: some int; x == {1, a[i]}) ; => a[]
when (i: some int; x == {a[i]: b[i]}) ; => a[]
when (i: some int; x == {1: b[i], 2: a[i]}) ; => b[]
when (i: some int; x.i == a[i].i) ; => a[]
when (i, j: some int; a[j][i] == 1) ; => unbounded i
when (j, i: some int; a[j][i] == 1) ; => a[] a[j][]
when (i, j: some int; a[i][j] == 1) ; => a[] a[i][]
when (i, j: some int; a[j][i] == b[i] && b[j] == 1) ; => b[] a[]
when (i, j: some int; a[i] == 1) ; => unbounded j
when (i, j: some int; a[j] == 1) ; => unbounded i
when (i, j: some int; true) ; => unbounded i
when (i: some int; j: each int; k: all int; a[i] + b[j] == c[k]) ; => a[] b[] c[]
when (k: some string; m[k] == 1) ; => m[]
when (k: some string; i: some int; m[k][i] == 1) ; => m[] m[k][]
when (i: some int; k: some string; m[k][i] == 1) ; => unbounded i";

#[test]
fn each_variable_has_the_first_part_that_fits(rt: HostRuntime) {
    for row in ROWS.lines() {
        let (text, expected) = row.split_once(" => ").unwrap_or((row, "no arrow"));
        let found = told(rt.alloc(), text.as_bytes());
        assert_eq!(rt; found.as_str(), expected, "at {text}");
    }
}
