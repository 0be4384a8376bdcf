//! The files of the rows.

/// Each file with its text.
pub const FILES: [(&str, &str); 8] = [
    (
        "inc.wy",
        "function inc(int x) -> (int r)\nrequires x < 100\nensures r > x:\n    return x + 1\n",
    ),
    (
        "inc.cert",
        "wycert 1\ncond 1\nsum 1 2 1 5\ncond 2\nsum 1 4 1 6\ncond 3\nsum 1 7\nend\n",
    ),
    (
        "hello.wy",
        "method hello(int n) -> (int r):\n    print(\"hi \")\n    print_int(n)\n    print(\"\\n\")\n    return n\nmethod six():\n    print(\"abcdef\")\n",
    ),
    (
        "abs.wy",
        "function abs(int x) -> (int r)\nensures r >= 0:\n    if x < 0:\n        return -x\n    return x\n",
    ),
    ("bad.cert", "wycert 1\ncond 1\nsum 1 4 1 6\nend\n"),
    (
        "share.wy",
        "type T is {T[] kids}\nfunction keep(int[] xs) -> (int[] r)\nrequires |xs| > 0:\n    int[] ys = xs\n    ys[0] = 9\n    return xs\nfunction fill(int n) -> (int[] r)\nrequires n >= 0\nrequires n <= 1000000\nensures |r| == n:\n    int[] a = [0; n]\n    int i = 0\n    while i < n\n    where i >= 0\n    where |a| == n:\n        a[i] = i\n        i = i + 1\n    return a\nfunction nest(T t) -> (T r):\n    t.kids = [t]\n    return t\n",
    ),
    (
        "tab.wy",
        "function f(int x) -> (int r):\n    int y = x\n\treturn y\n",
    ),
    (
        "max.wy",
        "// The greatest item of an array: a loop whose invariants speak of all items so far.\nfunction max(int[] xs) -> (int r)\nrequires |xs| > 0\nensures all { k in 0..|xs| | r >= xs[k] }:\n    int m = xs[0]\n    int i = 1\n    while i < |xs|\n    where 1 <= i\n    where i <= |xs|\n    where all { k in 0..i | m >= xs[k] }:\n        if xs[i] > m:\n            m = xs[i]\n        i = i + 1\n    return m\n",
    ),
];
