// Texts with the lines that they give over every store.

// Those that are answered.
pub const ANSWERED: &[(&str, &str)] = &[
    ("begin", "lowest 0\n"),
    ("\n \t\nbegin\n", "lowest 0\n"),
    ("switch A\nbegin\n", "A free\nlowest 0\n"),
    ("switch A\nrule defined A\nbegin\n", "A on\nlowest 1\n"),
    (
        "switch A\r\nrule !defined(A)\r\nbegin\r\n",
        "A off\nlowest 0\n",
    ),
    (
        "switch A\nswitch B\nrule defined A || defined B\nbegin",
        "A free\nB free\nlowest 1\n",
    ),
    (
        "switch A\nswitch B\nrule defined A && !defined B\nbegin",
        "A on\nB off\nlowest 1\n",
    ),
    (
        "switch A\nswitch B\nrule !defined A || defined B\nrule defined A\nbegin",
        "A on\nB on\nlowest 3\n",
    ),
    (
        "switch rule\nswitch begin\nrule 1&&(0||defined begin)\nbegin",
        "rule free\nbegin on\nlowest 2\n",
    ),
];

// Those with a line that is refused.
pub const REFUSED_LINES: &[(&str, &str)] = &[
    ("", "refused 23 rules line 0 byte 0"),
    ("switch A\n", "refused 23 rules line 0 byte 0"),
    (
        "switch A\nrule defined A\n",
        "refused 23 rules line 0 byte 0",
    ),
    (
        "switch A\nswitch B\nswitch A\nbegin",
        "refused 23 rules line 3 byte 0",
    ),
    (
        "switch A\nrule 1\nswitch B\nbegin",
        "refused 23 rules line 3 byte 0",
    ),
    (
        "switch A\nrule 1\nswitch 9\nbegin",
        "refused 13 expression line 3 byte 8",
    ),
    (
        "switch A\nrule defined B\nbegin",
        "refused 23 rules line 2 byte 0",
    ),
    ("other\nbegin", "refused 23 rules line 1 byte 0"),
    ("/* x */\nbegin", "refused 23 rules line 1 byte 0"),
    ("begin x", "refused 14 expression line 1 byte 7"),
    ("switch\nbegin", "refused 13 expression line 1 byte 7"),
    (
        "switch defined\nbegin",
        "refused 13 expression line 1 byte 8",
    ),
    ("switch A B\nbegin", "refused 14 expression line 1 byte 10"),
    (
        "switch A\nrule defined A\nrule !defined A\nbegin",
        "refused 5 rules line 0 byte 0",
    ),
];

// Those with a condition that is refused.
pub const REFUSED_EXPRESSIONS: &[(&str, &str)] = &[
    ("rule\nbegin", "refused 14 expression line 1 byte 5"),
    ("rule 1 1\nbegin", "refused 14 expression line 1 byte 8"),
    ("rule 1 & & 1\nbegin", "refused 14 expression line 1 byte 8"),
    ("rule 00\nbegin", "refused 14 expression line 1 byte 6"),
    ("rule 1 // x\nbegin", "refused 14 expression line 1 byte 8"),
    ("rule A\nbegin", "refused 15 expression line 1 byte 6"),
    (
        "switch A\nrule defined(A\nbegin",
        "refused 14 expression line 2 byte 15",
    ),
    (
        "rule defined()\nbegin",
        "refused 13 expression line 1 byte 14",
    ),
    (
        "rule defined defined\nbegin",
        "refused 13 expression line 1 byte 14",
    ),
    ("rule (1\nbegin", "refused 14 expression line 1 byte 8"),
    ("rule 1)\nbegin", "refused 14 expression line 1 byte 7"),
];
