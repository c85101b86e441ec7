// The numbers of the 21 options that have names.

pub const IF_MATCH: u16 = 1;

pub const URI_HOST: u16 = 3;

pub const E_TAG: u16 = 4;

pub const IF_NONE_MATCH: u16 = 5;

pub const OBSERVE: u16 = 6;

pub const URI_PORT: u16 = 7;

pub const LOCATION_PATH: u16 = 8;

pub const OSCORE: u16 = 9;

pub const URI_PATH: u16 = 11;

pub const CONTENT_FORMAT: u16 = 12;

pub const MAX_AGE: u16 = 14;

pub const URI_QUERY: u16 = 15;

pub const ACCEPT: u16 = 17;

pub const LOCATION_QUERY: u16 = 20;

pub const BLOCK2: u16 = 23;

pub const BLOCK1: u16 = 27;

pub const PROXY_URI: u16 = 35;

pub const PROXY_SCHEME: u16 = 39;

pub const SIZE1: u16 = 60;

pub const SIZE2: u16 = 28;

pub const NO_RESPONSE: u16 = 258;

// All of them, in the order above.
pub const OPTION_NUMBERS: [u16; 21] = [
    IF_MATCH,
    URI_HOST,
    E_TAG,
    IF_NONE_MATCH,
    OBSERVE,
    URI_PORT,
    LOCATION_PATH,
    OSCORE,
    URI_PATH,
    CONTENT_FORMAT,
    MAX_AGE,
    URI_QUERY,
    ACCEPT,
    LOCATION_QUERY,
    BLOCK2,
    BLOCK1,
    PROXY_URI,
    PROXY_SCHEME,
    SIZE1,
    SIZE2,
    NO_RESPONSE,
];
