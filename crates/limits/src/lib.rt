// The limits that document 01's questions set, and the sizes of local arrays that follow from them. Each limit stands once here, for the code, and once
// in specs/Limits.antt, for the definitions. A limit of a length that is told in 16 bits has 16 bits; its name with ROOM is the same as an array's size.
#![tactic(auto)]

// Question 1: the bytes of a card.
pub const CARD_BYTES: usize = 8326;

// Question 7: the generators of a list.
pub const GENERATORS: usize = 64;

// Question 8: the letters of a list together, of a target, and of a single word. An inverse has two letters for each S.
pub const WORD_LETTERS: usize = 4096;

pub const INVERSE_ROOM: usize = 2 * WORD_LETTERS;

// Question 11: the letters of one generator's normal form, and of all generators' normal forms together.
pub const GENERATOR_LETTERS: u16 = 80;

pub const LIST_LETTERS: u16 = 320;

pub const LIST_ROOM: usize = LIST_LETTERS as usize;

// The states of a list: one for each letter of its normal forms, and the empty word.
pub const LIST_STATES: usize = LIST_ROOM + 1;

// A list with the inverses of its generators behind it. In an inverse's normal form an R stays and S becomes SS, so all of them together have at most half
// as many letters again as the list, and half a letter more for each generator.
pub const SIGNED_GENERATORS: usize = 2 * GENERATORS;

pub const SIGNED_LETTERS: u16 = 832;

pub const SIGNED_ROOM: usize = SIGNED_LETTERS as usize;

// The states of such a list, and so the most that any list has.
pub const STATES_ROOM: usize = SIGNED_ROOM + 1;

// Question 14: the lent slice for the inverses' normal forms.
pub const INVERSES_SLICE: usize = 640;

// Question 12: the letters of the normal form of a target, a word that is turned into its matrix, or a matrix.
pub const FORM_LETTERS: u16 = 80;

pub const FORM_ROOM: usize = FORM_LETTERS as usize;

// Question 13: the bound n, and so the factors of a witness.
pub const BOUND: u16 = 1000;

pub const WITNESS_ROOM: usize = BOUND as usize;
