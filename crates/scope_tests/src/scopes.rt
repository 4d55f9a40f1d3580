//! Units in short, and what their declarations and questions answer.
use crate::script::answers;
use std::alloc::Global;
use std::process::Abort;
use std::test::Fail;

/// Each script answers what stands beside it.
fn agree(rt: &impl Abort, alloc: Global, rows: &[(&str, &str)]) -> Result<(), Fail> {
    for row in rows {
        let (script, want) = *row;
        let got = answers(alloc, script)?;
        assert_eq!(rt; got.as_str(), want, "at {script}");
    }
    Ok(())
}

/// Each rule alone, at the name that breaks it, and beside it what is accepted.
const RULES: [(&str, &str); 20] = [
    ("local int cake_x|look cake_x|local int cake", " C01:1 - 0"),
    (
        "struct cake_s|enumerator cake_e|typedef int cake_t",
        " C01:1 C01:2 C01:3",
    ),
    (
        "{|local int x|local long x|look x|{|local long x",
        " 0 C02:3 0 1",
    ),
    ("typedef int x|local int x|enumerator x", " 0 C02:2 C02:3"),
    ("public int x|public long x|public int x", " 0 C03:2 0"),
    ("static int x|public int x|static int x", " 0 C04:2 0"),
    ("tag enum1 e {}|tag enum1 e {}|tag enum1 e", " 0 C06:2 0"),
    (
        "struct s|tag enum1 s|struct s {}|struct s {}",
        " 0 C06:2 0 C06:4",
    ),
    ("public void(int) exit {}|public void(int) exit", " C07:1 0"),
    (
        "public void(void*) free|public void(void*_Owner_Opt) free",
        " C07:1 0",
    ),
    (
        "public int exit|{|local int exit|extern int exit",
        " C07:1 0 C02:4",
    ),
    ("static int() f|use f|use f later|unresolved", " 0 C08:2"),
    (
        "static int() f|use f|static int() f {}|unresolved",
        " 0 0 -",
    ),
    (
        "public int() f|use f|static int x|use x|unresolved",
        " 0 1 -",
    ),
    (
        "static int() f|static int() g|use g later|use f later|unresolved",
        " 0 1 C08:996",
    ),
    // the smallest number first
    ("public int cake_x|static long cake_x", " C01:1 C01:2"),
    ("{|local int x|extern long x", " 0 C02:3"),
    ("static int x|public long x", " 0 C03:2"),
    ("static int exit", " C07:1"),
    ("tag enum1 exit {}|typedef int exit", " 0 1"),
];

#[test]
fn rules_stand_at_their_names(rt: HostRuntime) -> Result<(), Fail> {
    agree(&rt, rt.alloc(), &RULES)
}

/// Which declarations share an id, and what is visible where.
const IDS: [(&str, &str); 17] = [
    (
        "public int x|public int x {}|extern int x|fresh|public int y",
        " 0 0 0 1 2",
    ),
    // a block's extern after a file's static; one whose visible declaration has no linkage
    ("static int x|{|extern int x|look x", " 0 0 0"),
    ("static int x|{|local int x|{|extern int x", " 0 1 C04:5"),
    // declarations that aren't visible count too
    ("{|extern int x|}|public long x|look x", " 0 C03:4 -"),
    // names of types
    ("typedef int t|typedef int t|typedef long t", " 0 0 C03:3"),
    ("typedef [] t|typedef [3] t", " 0 C03:2"),
    ("typedef enum1 t|typedef int t", " 0 C03:2"),
    ("typedef int t|{|typedef long t|look t|}|look t", " 0 1 1 0"),
    // a tag and another name
    ("tag enum1 n|local int n|tagged n|look n", " 0 1 0 1"),
    ("struct s {}|{|tag enum1 s|tagged s|}|tagged s", " 0 1 1 0"),
    (
        "enumerator a|{|enumerator a|enumerator a|look a",
        " 0 1 C02:4 1",
    ),
    // a parameter in the scope of the body
    ("lambda|local int p|local int p|{|local int p", " 0 C02:3 1"),
    // what a block declares is gone behind it
    (
        "local int x|{|look x|here x|local int x|look x|here x|}|look x|look y",
        " 0 0 - 1 1 1 0 -",
    ),
    ("}|local int x|{|}|}|look x", " 0 0"),
    // function literals
    (
        "local int x|facts x|lambda|local int p|{|facts x|facts p|lambda|facts p|}|}|}|facts x",
        " 0 in:1 1 out:1 in:4 out:4 in:1",
    ),
    (
        "lambda|extern int x|}|lambda|look x|extern int x|facts x",
        " 0 - 0 in:2",
    ),
    (
        "public int x|public int y|public int x|fresh|all",
        " 0 1 0 2 0:3 1:2",
    ),
];

#[test]
fn ids_are_shared_or_new(rt: HostRuntime) -> Result<(), Fail> {
    agree(&rt, rt.alloc(), &IDS)
}

/// What is known of a name after several declarations.
const REDECLARED: [(&str, &str); 8] = [
    // arrays keep a length that was told
    (
        "extern [] a|length a|extern [3] a|length a|extern [] a|length a|extern [4] a",
        " 0 []:1 0 [3]:3 0 [3]:5 C03:7",
    ),
    (
        "public [] a|settle a|length a|extern [4] a|extern [3] a",
        " 0 [3]:1 C03:4 0",
    ),
    (
        "extern &[] f|extern &[3] f|extern &[] f|extern &[4] f",
        " 0 0 0 C03:4",
    ),
    ("extern enum1 x|extern int x|extern enum2 x", " 0 0 C03:3"),
    // the line that counts: of the definition, else of the first tentative one, else of the first declaration
    (
        "extern int x|facts x|extern int x|facts x",
        " 0 in:1 0 in:1",
    ),
    (
        "extern int x|public int x {}|public int x {}|facts x",
        " 0 0 0 in+:2",
    ),
    (
        "public int x {}|public int x {}|begin x|facts x|begin x later|facts x",
        " 0 0 in+=:3 in+=:3",
    ),
    (
        "public int() f|public int() f {}|begin f|facts f",
        " 0 0 in+=:3",
    ),
];

#[test]
fn redeclarations_add_what_they_tell(rt: HostRuntime) -> Result<(), Fail> {
    agree(&rt, rt.alloc(), &REDECLARED)
}
