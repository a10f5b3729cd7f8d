//! Texts and what gcc gives of them.

use crate::preprocess::shelf::come_to;
use std::hash::RandomState;
use std::test::Fail;

const EXPANSIONS: &[(&str, &str)] = &[
    (
        "#define address addr\n#address-cells = <1>;\n",
        "\n#addr-cells = <1>;\n",
    ),
    (
        "#define P #size-cells = <0>\nP;\n",
        "\n #size-cells = <0>;\n",
    ),
    (
        "#define B(size) #size-cells = <size>\nB(1);\n",
        "\n\"1\"-cells = <1>;\n",
    ),
    (
        "#define B(n) #size-cells = <n>\nB(1);\n",
        "\n #size-cells = <1>;\n",
    ),
    (
        "#define PIN(n) pin- ## n { s = #n; }\nPIN(gpa0-1);\n",
        "\npin-gpa0-1 { s = \"gpa0-1\"; };\n",
    ),
    (
        "#define L(n) uart##n: serial@n\nL(0) { };\n",
        "\nuart0: serial@0 { };\n",
    ),
    (
        "#define C(a, b) <a##b>\nC(, 2) C(1, ) C(, ) C(0x, 3)\n",
        "\n<2> <1> <> <0x3>\n",
    ),
    ("#define ID(x) x\nn-ID(3)-x n-ID(c)-x\n", "\nn-3 -x n-c-x\n"),
    ("#define ID(x) x\nx = <ID(1)ID(2)>;\n", "\nx = <1 2>;\n"),
    (
        "#define N 3\nuart@3e-N uart@N \"N\" 'N' N\n",
        "\nuart@3e-N uart@3 \"N\" 'N' 3\n",
    ),
    ("#define N 3\nit's N // N\n", "\nit's N // N\n"),
    ("#define a a b\na\n", "\na b\n"),
    (
        "#define f(x) x*g\n#define g(x) f(x)\nf(2)(9)\n",
        "\n\n2*9*g\n",
    ),
    ("#define f(x) [x]\nf;\nf\n(1) f\n", "\nf;\n[1] f\n"),
    (
        "#define f(x, ...) x, ##__VA_ARGS__;\nf(1) f(1, 2)\n",
        "\n1; 1, 2;\n",
    ),
    (
        "#define S(x) #x\n#define XS(x) S(x)\n#define N 1\nS(N) XS(N-0) S( a  \"b\\n\" )\n",
        "\n\n\n\"N\" \"1-0\" \"a \\\"b\\\\n\\\"\"\n",
    ),
    ("#define E\na-E-b a E b <E>\n", "\na- -b a b <>\n"),
];

#[test]
fn expansions(rt: HostRuntime) -> Result<(), Fail> {
    come_to(&rt, rt.alloc(), RandomState::new(&rt)?, EXPANSIONS);
    Ok(())
}

const LINES_AND_CONDITIONS: &[(&str, &str)] = &[
    ("#define LONG 1 \\\n  2\nx = LONG;\n", "\n\nx = 1 2;\n"),
    ("a/* b\nc */d // e\nf\n", "a d\n\nf\n"),
    ("#define A 1\r\nx = A;\r\n", "\nx = 1;\n"),
    (
        "#define cells 2\n#address-cells = <cells>;\n# size\n",
        "\n#address-2 = <2>;\n# size\n",
    ),
    (
        "#if defined(M) && D == 4 && !defined X\nyes\n#else\nno\n#endif\n",
        "\nyes\n",
    ),
    (
        "#if 0\n#error no\n#include \"gone\"\nno\n#elif (1 << 4) == 0x10 && 010 == 8 && -1 < 0\nyes\n#elif 1 / 0\nno\n#endif\n",
        "\n\n\n\n\nyes\n",
    ),
    (
        "#if 0 && 1 / 0\nno\n#elif 1 || 1 / 0\nyes\n#endif\n",
        "\n\n\nyes\n",
    ),
    (
        "#if -7 / 2 == -3 && -7 % 2 == -1 && (6 ^ 3) == 5 && (6 | 1) == 7 && (6 & 3) == 2 && ~0 == -1\nyes\n#endif\n",
        "\nyes\n",
    ),
    (
        "#if 1 - 2 - 3 == -4 && 2 + 3 * 4 == 14 && -8 >> 1 == -4 && 5L > 4ll\nyes\n#endif\n",
        "\nyes\n",
    ),
    (
        "#ifdef X\n#if (\n#else\n#endif\n#elif X\n#else\nyes\n#endif\n#ifndef X\nand\n#endif\n",
        "\n\n\n\n\n\nyes\n\n\nand\n",
    ),
    (
        "#define X 1\n#define X 2\nX\n#undef X\nX\n#undef X\n",
        "\n\n2\n\nX\n",
    ),
    (
        "#define F(a, b) [a b]\nF(1,\n  2) x\ny\n",
        "\n[1 2] x\n\ny\n",
    ),
    ("#define F(a) [a]\nF\n(1)\ny F", "\n[1]\n\ny F\n"),
    ("#define f(x) x f\nf(f(1)) (2)\n", "\n1 f f (2)\n"),
    (
        "#define F(a) F2 a\n#define F2(x) <x>\nF((1))\n",
        "\n\n<1>\n",
    ),
    (
        "#define C(a, b) <a##b>\nC(,) C(1,) C(,2)\n",
        "\n<> <1> <2>\n",
    ),
    (
        "#define V(f, x...) f(x)\nV(a) V(a, b, c) V()\n",
        "\na() a(b, c) ()\n",
    ),
    (
        "#define W(f, x...) f(0, ## x)\nW(a) W(a, b, c)\n",
        "\na(0) a(0, b, c)\n",
    ),
    (
        "#define NONE() none\nNONE() NONE( ) NONE\n",
        "\nnone none NONE\n",
    ),
    (
        "#define E\n#define P +\n#define Q -1\nP+ +P -Q E-E 3Q D.D\n",
        "\n\n\n+ + + + - -1 - 3Q 4 . 4\n",
    ),
    (
        "#define J(a, b) a ## b\nJ(pin-, 3) J(<, <) J(a, J(b, c)) J(/, /)\n",
        "\npin- 3 << aJ(b, c) / /\n",
    ),
    (
        "#define S(x) #x\nS(\"a\\n\" 'b' c\\d) S(a /* b */ c) S()\n",
        "\n\"\\\"a\\\\n\\\" 'b' c\\d\" \"a c\" \"\"\n",
    ),
    ("#define H #x y ## z\nH\n", "\n #x yz\n"),
    ("#warning it's so\n#\nx\n", "\n\nx\n"),
    (
        "a\n\n\n\n\n\n\n\nb\n\n\n\n\n\n\n\n\n\nc\n",
        "a\n\n\n\n\n\n\n\nb\n# 19 \"b.dts\"\nc\n",
    ),
    ("  indented {\n\t\ttabs;\n", "  indented {\n  tabs;\n"),
];

#[test]
fn lines_and_conditions(rt: HostRuntime) -> Result<(), Fail> {
    come_to(
        &rt,
        rt.alloc(),
        RandomState::new(&rt)?,
        LINES_AND_CONDITIONS,
    );
    Ok(())
}
