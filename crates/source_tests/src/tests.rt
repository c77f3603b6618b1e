// Sources with what is kept of them, or their refusal: first those of every kind, then those at a limit and one past it.
use preprocessing::preprocess;
use std::alloc::Global;
use std::process::Abort;
use std::test::Fail;

// The switches A and B, of which the first is on in configuration 1 and the second in configuration 2.
const SWITCHES: &[&[u8]] = &[b"A", b"B"];

// The source gives this output in the configuration, or this refusal.
fn gives(
    rt: &impl Abort,
    heap: Global,
    configuration: u32,
    source: &[u8],
    expected: &str,
) -> Result<(), Fail> {
    match preprocess(heap, SWITCHES, configuration, source) {
        Ok(output) => {
            assert!(rt; output.as_slice() == expected.as_bytes(), "{}", expected);
            Ok(())
        },
        Err(fault) => match fault.refusal() {
            Some(refusal) => {
                let line = format!(in heap; "{refusal}")?;
                assert!(rt; line.as_str() == expected, "{}", line.as_str());
                Ok(())
            }
            None => Err(Fail::new("out of memory")),
        },
    }
}

fn all(rt: &impl Abort, heap: Global, table: &[(u32, &str, &str)]) -> Result<(), Fail> {
    for (configuration, source, expected) in table {
        gives(rt, heap, *configuration, source.as_bytes(), expected)?;
    }
    Ok(())
}

#[test]
fn blocks(rt: HostRuntime) -> Result<(), Fail> {
    all(
        &rt,
        rt.alloc(),
        &[
            (0, "", ""),
            (0, "x", "x"),
            (0, "#ifdef A\na\n#elifdef B\nb\n#else\nc\n#endif\n", "c\n"),
            (1, "#ifdef A\na\n#elifdef B\nb\n#else\nc\n#endif\n", "a\n"),
            (2, "#ifdef A\na\n#elifdef B\nb\n#else\nc\n#endif\n", "b\n"),
            (3, "#ifdef A\na\n#elifdef B\nb\n#else\nc\n#endif\n", "a\n"),
            (0, "#if 0\n#if 1\na\n#endif\n#else\nb\n#endif", "b\n"),
            (
                0,
                "#ifndef A\n#define A\n#endif\n#ifdef A\nx\n#endif\n",
                "#define A\nx\n",
            ),
            (1, "#if 0\n#undef A\n#endif\n#ifdef A\nx\n#endif\n", "x\n"),
            (
                3,
                "#if defined A && !defined(B) || 0\nx\n#elifndef B\ny\n#else\nz\n#endif",
                "z\n",
            ),
            (1, " /* c */ # /* d */ ifdef A // e\nx\r\n#endif", "x\r\n"),
            (
                1,
                "/*\n#ifdef B\n*/ x\n\"/*\"\n#ifdef A\n'\\''\n#endif",
                "/*\n#ifdef B\n*/ x\n\"/*\"\n'\\''\n",
            ),
            (
                0,
                "#include <a>\n#\n#pragma b\n",
                "#include <a>\n#\n#pragma b\n",
            ),
        ],
    )
}

#[test]
fn refused_lines(rt: HostRuntime) -> Result<(), Fail> {
    all(
        &rt,
        rt.alloc(),
        &[
            (0, "x\ny \\ \nz", "refused 9 lines line 2 byte 0"),
            (0, "/*\n\\\n*/", "refused 9 lines line 2 byte 0"),
            (0, "#if 1 /*\n*/\n#endif", "refused 10 lines line 1 byte 0"),
            (0, "# /*\n*/", "refused 10 lines line 1 byte 0"),
            (0, "/*\n*/ # /*\n*/", "refused 10 lines line 2 byte 0"),
            (0, "x\n/* y\n", "refused 10 lines line 2 byte 0"),
            (0, "#define /*", "refused 10 lines line 1 byte 0"),
            (0, "#define A /*\n*/", "#define A /*\n*/"),
            (0, "/*\n*/ #if 1\n", "refused 11 lines line 2 byte 0"),
            (0, "/*\n*/ # x\n", "refused 11 lines line 2 byte 0"),
            (0, "/*\n#if 1\n*/", "/*\n#if 1\n*/"),
            (0, "#ifdef\n#endif", "refused 13 expression line 1 byte 7"),
            (
                0,
                "#define defined\n",
                "refused 13 expression line 1 byte 9",
            ),
            (0, "#undef A B\n", "refused 14 expression line 1 byte 10"),
            (0, "#if\n#endif", "refused 14 expression line 1 byte 4"),
            (0, "#if 1\n#else x\n", "refused 14 expression line 2 byte 7"),
            (0, "#if \"a\"\n", "refused 14 expression line 1 byte 5"),
            (0, "#if A\n", "refused 15 expression line 1 byte 5"),
            (
                0,
                "#if !!!!!!!!!!!!!!!!!1\n",
                "refused 16 expression line 1 byte 21",
            ),
            (0, "#elif A\n", "refused 15 expression line 1 byte 7"),
            (0, "#elif 1\n", "refused 17 conditionals line 1 byte 0"),
            (0, "#endif\n", "refused 17 conditionals line 1 byte 0"),
            (
                0,
                "#if 1\n#else\n#else\n",
                "refused 17 conditionals line 3 byte 0",
            ),
            (
                0,
                "#if 1\n#else\n#elifdef A\n",
                "refused 17 conditionals line 3 byte 0",
            ),
            (0, "#if 0\nx\n", "refused 21 conditionals line 2 byte 0"),
            (0, "#if 0", "refused 21 conditionals line 1 byte 0"),
        ],
    )
}

#[test]
fn refused_calls(rt: HostRuntime) -> Result<(), Fail> {
    let heap = rt.alloc();
    gives(&rt, heap, 4, b"x", "refused 4 session line 0 byte 0")?;
    let a: &[u8] = b"A";
    assert!(rt; preprocess(heap, &[a, a], 0, b"x").is_err());
    assert!(rt; preprocess(heap, &[a; 25], 0, b"x").is_err());
    Ok(())
}

// `before`, then `count` times `part`, then `behind`. As in `rule_tests`, parameters and all: a crate for two lines would be no plainer.
fn repeated(
    heap: Global,
    before: &str,
    part: &str,
    count: usize,
    behind: &str,
) -> Result<String, Fail> {
    let parts = part.repeat(heap, count)?;
    Ok(format!(in heap; "{before}{parts}{behind}")?)
}

// With `count` parts the source gives this.
fn limit(
    rt: &impl Abort,
    heap: Global,
    before: &str,
    part: &str,
    count: usize,
    behind: &str,
    expected: &str,
) -> Result<(), Fail> {
    let source = repeated(heap, before, part, count, behind)?;
    gives(rt, heap, 0, source.as_bytes(), expected)
}

#[test]
fn sizes(rt: HostRuntime) -> Result<(), Fail> {
    let heap = rt.alloc();
    limit(&rt, heap, "#if 0\n", "x", 65_521, "\n#endif\n", "")?;
    limit(
        &rt,
        heap,
        "#if 0\n",
        "x",
        65_522,
        "\n#endif\n",
        "refused 8 lines line 0 byte 0",
    )?;
    limit(&rt, heap, "#if 0\n", "\n", 4_093, "#endif", "")?;
    limit(
        &rt,
        heap,
        "#if 0\n",
        "\n",
        4_094,
        "#endif",
        "refused 8 lines line 0 byte 0",
    )
}

#[test]
fn line_and_name_lengths(rt: HostRuntime) -> Result<(), Fail> {
    let heap = rt.alloc();
    limit(&rt, heap, "#if 1", " ", 250, "\n#endif", "")?;
    limit(
        &rt,
        heap,
        "#if 1",
        " ",
        251,
        "\n#endif",
        "refused 12 lines line 1 byte 0",
    )?;
    limit(&rt, heap, "#ifdef ", "N", 63, "\n#endif", "")?;
    limit(
        &rt,
        heap,
        "#ifdef ",
        "N",
        64,
        "\n#endif",
        "refused 13 expression line 1 byte 8",
    )
}

#[test]
fn chains_and_blocks(rt: HostRuntime) -> Result<(), Fail> {
    let heap = rt.alloc();
    let ends = repeated(heap, "", "#endif\n", 32, "")?;
    limit(&rt, heap, "", "#if 0\n", 32, ends.as_str(), "")?;
    limit(
        &rt,
        heap,
        "",
        "#if 0\n",
        33,
        ends.as_str(),
        "refused 18 conditionals line 33 byte 0",
    )?;
    limit(&rt, heap, "#if 0\n", "#elif 0\n", 254, "#endif", "")?;
    limit(
        &rt,
        heap,
        "#if 0\n",
        "#elif 0\n",
        255,
        "#endif",
        "refused 19 conditionals line 256 byte 0",
    )
}

// So many `define` lines in a block that no configuration has, each of a name of its own.
fn defines(heap: Global, count: usize) -> Result<String, Fail> {
    let mut text = String::from_str(heap, "#if 0\n")?;
    for i in 0..count {
        let line = format!(in heap; "#define N{i}\n")?;
        text.push_str(line.as_str())?;
    }
    text.push_str("#undef M\n#define A\n#endif\n")?;
    Ok(text)
}

#[test]
fn names(rt: HostRuntime) -> Result<(), Fail> {
    let heap = rt.alloc();
    let most = defines(heap, 62)?;
    gives(&rt, heap, 0, most.as_bytes(), "")?;
    let more = defines(heap, 63)?;
    gives(
        &rt,
        heap,
        0,
        more.as_bytes(),
        "refused 20 conditionals line 64 byte 0",
    )
}
