//! The numbers of words and punctuators, which are looked for among the spellings of one length.
ghost use Rattle.std.specs.Prelude.{◌≡◌, map};
ghost use Rattle.model_types.specs.Vocabulary as spec;
ghost use Rattle.c_tokens.specs.Numbered.{number_under};

const WORDS_OF_2: [(&[u8], u32); 2] = [(b"if", 31), (b"do", 35)];

const WORDS_OF_3: [(&[u8], u32); 2] = [(b"int", 14), (b"for", 36)];

const WORDS_OF_4: [(&[u8], u32); 11] = [
    (b"auto", 8),
    (b"void", 11),
    (b"char", 12),
    (b"long", 15),
    (b"bool", 18),
    (b"_Opt", 26),
    (b"enum", 28),
    (b"case", 29),
    (b"else", 32),
    (b"true", 44),
    (b"goto", 58),
];

const WORDS_OF_5: [(&[u8], u32); 10] = [
    (b"short", 13),
    (b"_Bool", 19),
    (b"const", 22),
    (b"_View", 25),
    (b"while", 34),
    (b"break", 37),
    (b"defer", 40),
    (b"false", 45),
    (b"float", 56),
    (b"union", 62),
];

const WORDS_OF_6: [(&[u8], u32); 11] = [
    (b"inline", 3),
    (b"extern", 6),
    (b"static", 7),
    (b"signed", 16),
    (b"typeof", 20),
    (b"_Owner", 24),
    (b"struct", 27),
    (b"switch", 33),
    (b"return", 39),
    (b"sizeof", 41),
    (b"double", 55),
];

const WORDS_OF_7: [(&[u8], u32); 7] = [
    (b"typedef", 5),
    (b"default", 30),
    (b"alignof", 42),
    (b"nullptr", 46),
    (b"alignas", 47),
    (b"_Atomic", 49),
    (b"_BitInt", 50),
];

const WORDS_OF_8: [(&[u8], u32); 9] = [
    (b"register", 9),
    (b"unsigned", 17),
    (b"restrict", 23),
    (b"continue", 38),
    (b"_Alignof", 43),
    (b"_Alignas", 48),
    (b"_Complex", 51),
    (b"_Generic", 57),
    (b"volatile", 63),
];

const WORDS_OF_9: [(&[u8], u32); 2] = [(b"_Noreturn", 4), (b"constexpr", 10)];

const WORDS_OF_10: [(&[u8], u32); 3] = [
    (b"_Decimal32", 52),
    (b"_Decimal64", 53),
    (b"_Imaginary", 59),
];

const WORDS_OF_11: [(&[u8], u32); 1] = [(b"_Decimal128", 54)];

const WORDS_OF_12: [(&[u8], u32); 1] = [(b"thread_local", 60)];

const WORDS_OF_13: [(&[u8], u32); 3] = [
    (b"static_assert", 1),
    (b"typeof_unqual", 21),
    (b"_Thread_local", 61),
];

const WORDS_OF_14: [(&[u8], u32); 1] = [(b"_Static_assert", 2)];

const PUNCTUATORS_OF_1: [(&[u8], u32); 24] = [
    (b",", 1),
    (b";", 2),
    (b"(", 3),
    (b")", 4),
    (b"[", 5),
    (b"]", 6),
    (b"{", 7),
    (b"}", 8),
    (b":", 9),
    (b"=", 10),
    (b"*", 11),
    (b".", 13),
    (b"?", 24),
    (b"|", 27),
    (b"^", 28),
    (b"&", 29),
    (b"<", 32),
    (b">", 33),
    (b"+", 38),
    (b"-", 39),
    (b"/", 40),
    (b"%", 41),
    (b"~", 44),
    (b"!", 45),
];

const PUNCTUATORS_OF_2: [(&[u8], u32); 20] = [
    (b"*=", 14),
    (b"/=", 15),
    (b"%=", 16),
    (b"+=", 17),
    (b"-=", 18),
    (b"&=", 21),
    (b"^=", 22),
    (b"|=", 23),
    (b"||", 25),
    (b"&&", 26),
    (b"==", 30),
    (b"!=", 31),
    (b"<=", 34),
    (b">=", 35),
    (b"<<", 36),
    (b">>", 37),
    (b"++", 42),
    (b"--", 43),
    (b"->", 46),
    (b"::", 47),
];

const PUNCTUATORS_OF_3: [(&[u8], u32); 3] = [(b"...", 12), (b"<<=", 19), (b">>=", 20)];

fn number_under(table: &[(&[u8], u32)], spelling: &[u8]) -> Option<u32>
    ensures { result ≡ number_under (map (λ e. (e.0.now, e.1)) table.now) spelling.now }
{
    for (entry, number) in table {
        if *entry == spelling {
            return Some(*number);
        }
    }
    None
}

/// The number of a word, counted from 1; none where the spelling is no word.
#[tactic(auto, using(crate::proofs::NumberLaws::words))]
pub fn word_number(spelling: &[u8]) -> Option<u32>
    ensures { result ≡ spec.word_number spelling.now }
{
    match spelling.len() {
        2 => number_under(&WORDS_OF_2, spelling),
        3 => number_under(&WORDS_OF_3, spelling),
        4 => number_under(&WORDS_OF_4, spelling),
        5 => number_under(&WORDS_OF_5, spelling),
        6 => number_under(&WORDS_OF_6, spelling),
        7 => number_under(&WORDS_OF_7, spelling),
        8 => number_under(&WORDS_OF_8, spelling),
        9 => number_under(&WORDS_OF_9, spelling),
        10 => number_under(&WORDS_OF_10, spelling),
        11 => number_under(&WORDS_OF_11, spelling),
        12 => number_under(&WORDS_OF_12, spelling),
        13 => number_under(&WORDS_OF_13, spelling),
        14 => number_under(&WORDS_OF_14, spelling),
        _ => None,
    }
}

/// The number of a punctuator, counted from 1; none where the spelling is no punctuator of C.
#[tactic(auto, using(crate::proofs::NumberLaws::punctuator_numbers))]
pub fn punctuator_number(spelling: &[u8]) -> Option<u32>
    ensures { result ≡ spec.punctuator_number spelling.now }
{
    match spelling.len() {
        1 => number_under(&PUNCTUATORS_OF_1, spelling),
        2 => number_under(&PUNCTUATORS_OF_2, spelling),
        3 => number_under(&PUNCTUATORS_OF_3, spelling),
        _ => None,
    }
}
