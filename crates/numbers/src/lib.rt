// The numbers given back: document 01, "Numbers given back", and document 02. specs/Numbers.antt has them for definitions.
// They stay numbers where a call answers: the C interface hands them on as they are, and an enum would be turned into its number in every one.
#![tactic(auto)]

pub const ACCEPTED: u8 = 0;

pub const TOO_LONG: u8 = 1;

pub const UNKNOWN_KIND: u8 = 2;

pub const MISSING_CHECK: u8 = 3;

pub const WRONG_CHECK: u8 = 4;

pub const WRONG_COUNT: u8 = 5;

pub const WRONG_TEXT: u8 = 6;

pub const WRONG_IDENTITY: u8 = 7;

pub const UNPAIRED: u8 = 8;

pub const WRONG_KIND: u8 = 9;

pub const SHORT_OUTPUT: u8 = 10;

pub const UNFINISHED: u8 = 11;

pub const MISSING_ITEM: u8 = 12;

pub const NOT_ALIKE: u8 = 13;

pub const WRONG_ATTRIBUTES: u8 = 14;

pub const WRONG_FINGERPRINT: u8 = 15;

pub const WRONG_Z: u8 = 16;

pub const OTHER_REQUEST: u8 = 17;

pub const WRONG_TAG: u8 = 18;

pub const MISSING_TRAILER: u8 = 19;

pub const WRONG_HASH: u8 = 20;

pub const MISSING_BEGINS: u8 = 21;

pub const MISSING_ENDS: u8 = 22;

pub const NOT_CABINET: u8 = 23;

pub const NOT_LATER: u8 = 24;

pub const NO_PLACE: u8 = 25;

pub const NOT_THERE: u8 = 26;

pub const TVP_NOT_LATER: u8 = 27;

pub const MODULE_UNSIGNED: u8 = 28;
