//! The tables of models, row by row.
use notation::listing::listing;
use std::test::Fail;
use text::read::read_words;

// A model with a row of each form, and rows that are wrong.
const FORMS: &str = "7 3 4 20 18 2
0 1 2 259 260 132 7 8 8 8 9 73 137 201 10 138 156 139 142 141 145 12 15 16 138 27 154 348
138 285 267 139 12 139 32 33 1058 1891 36 933 934 2279 2280 41 41 42 43 812 749 1059 -5 43
48 48
0 0 0 -1 3 4 0 0 2 5 0 2 0 3 1 5 8 16 17 17 17 14 14 22 7 15 14 9 1 27 29 40 -3 15 0 14 15
30 16 38 36 38 41 1 2 0 10 14 16 15 0 3 43 -1
";

const FORMS_LISTED: &str = "types 7, variables 3, ports 4, expressions 20, statements 18, states 2
   0  type        kind  0  tail    0  arg    0  bool
   1  type        kind  1  tail    0  arg    0  nat
   2  type        kind  2  tail    0  arg    0  int
   3  type        kind  3  tail    4  arg   -1  -1..3
   4  type        kind  4  tail    4  arg    3  array 4 of -1..3
   5  type        kind  4  tail    2  arg    4  array 2 of array 4 of -1..3
   6  type        kind  7  tail    0  arg    0  ?
   7  variable    kind  8  tail    0  arg    0  var v0 : bool
   8  variable    kind  8  tail    0  arg    2  var v1 : int
   9  variable    kind  8  tail    0  arg    5  var v2 : array 2 of array 4 of -1..3
  10  port        kind  9  tail    0  arg    0  p0 : none
  11  port        kind  9  tail    1  arg    2  p1 : in int
  12  port        kind  9  tail    2  arg    0  p2 : out bool
  13  port        kind  9  tail    3  arg    3  p3 : in out -1..3
  14  expression  kind 10  tail    0  arg    1  true
  15  expression  kind 10  tail    2  arg    5  5
  16  expression  kind 28  tail    2  arg    8  v1
  17  expression  kind 11  tail    2  arg   16  v1
  18  expression  kind 14  tail    2  arg   17  $v1
  19  expression  kind 13  tail    2  arg   17  -v1
  20  expression  kind 17  tail    2  arg   17  v1 + (-v1)
  21  expression  kind 12  tail    0  arg   14  not true
  22  expression  kind 15  tail    0  arg   14  true and (not true)
  23  expression  kind 16  tail    0  arg   22  (true and (not true)) or (true and (not true))
  24  expression  kind 10  tail    2  arg    7  7
  25  expression  kind 27  tail    0  arg   15  5 : 7
  26  expression  kind 26  tail    2  arg   14  (true ? 5 : 7)
  27  expression  kind 28  tail    5  arg    9  v2
  28  expression  kind 10  tail    2  arg    1  1
  29  expression  kind 29  tail    4  arg   27  v2[1]
  30  expression  kind 11  tail    4  arg   29  v2[1]
  31  expression  kind 11  tail    2  arg   40  #40
  32  expression  kind 12  tail    0  arg   -3  not #-3
  33  expression  kind 11  tail    2  arg   15  #15
  34  statement   kind 32  tail    0  arg    0  null
  35  statement   kind 33  tail    0  arg   14  on true
  36  statement   kind 34  tail   16  arg   15  v1 := 5
  37  statement   kind 35  tail   29  arg   30  v2[1], v1 := v2[1], 5
  38  statement   kind 36  tail    0  arg   16  v1 := any
  39  statement   kind 37  tail   14  arg   38  while true do #38 end
  40  statement   kind 38  tail   14  arg   36  if true then #36 else #39 end
  41  statement   kind 39  tail   35  arg   38  #35; #38
  42  statement   kind 40  tail   35  arg   41  select #35 [] #41 end
  43  statement   kind 41  tail    0  arg    1  to s1
  44  statement   kind 41  tail    0  arg    2  to #2
  45  statement   kind 42  tail    0  arg    0  loop
  46  statement   kind 43  tail    0  arg   10  p0
  47  statement   kind 44  tail   12  arg   14  p2 ! true
  48  statement   kind 45  tail   11  arg   16  p1 ? v1
  49  statement   kind 35  tail   16  arg   15  v1, #48 := 5, #48
  50  statement   code            -5  arg    0  ?
  51  statement   kind 43  tail    0  arg    3  #3
  52  state       kind 48  tail    0  arg   43  from s0 #43
  53  state       kind 48  tail    0  arg   -1  from s1 (no transition)
";

#[test]
fn each_form_has_its_notation(rt: HostRuntime) -> Result<(), Fail> {
    let words = read_words(rt.alloc(), FORMS.as_bytes())?;
    let listed = listing(rt.alloc(), words.as_slice())?.ok_or("wrong sizes")?;
    assert_eq!(rt; listed.as_str(), FORMS_LISTED);
    Ok(())
}

#[test]
fn each_operator_has_its_symbol(rt: HostRuntime) -> Result<(), Fail> {
    let operators = [
        (15, "and"),
        (16, "or"),
        (17, "+"),
        (18, "-"),
        (19, "*"),
        (20, "/"),
        (21, "%"),
        (22, "="),
        (23, "<>"),
        (24, "<"),
        (25, "<="),
        (30, ">"),
        (31, ">="),
    ];
    for (kind, symbol) in operators {
        let words = [1, 0, 0, 3, 0, 1, 2, 10, 10, kind, 48, 0, 8, 9, 1, -1];
        let listed = listing(rt.alloc(), &words)?.ok_or("wrong sizes")?;
        let line = format!(in rt.alloc(); "  8 {symbol} 9\n")?;
        assert!(rt; listed.as_str().contains(line.as_str()), "{}", symbol);
    }
    Ok(())
}

#[test]
fn what_lies_deep_is_named_by_its_row(rt: HostRuntime) -> Result<(), Fail> {
    let words = [
        1, 0, 0, 9, 0, 1, 2, 10, 13, 13, 13, 13, 13, 13, 13, 13, 48, 0, 5, 1, 2, 3, 4, 5, 6, 7, 8,
        -1,
    ];
    let listed = listing(rt.alloc(), &words)?.ok_or("wrong sizes")?;
    assert!(rt; listed.as_str().contains("  -(-(-(-(-(-5)))))\n"));
    assert!(rt; listed.as_str().contains("  -(-(-(-(-(-(-#2))))))\n"));
    Ok(())
}

#[test]
fn words_of_wrong_sizes_have_no_listing(rt: HostRuntime) -> Result<(), Fail> {
    assert!(rt; listing(rt.alloc(), &[0, 0, 0, 0, 0, 1, 48])?.is_none());
    assert!(rt; listing(rt.alloc(), &[0, 0, 0, 0, 0, 1, 48, -1])?.is_some());
    Ok(())
}
