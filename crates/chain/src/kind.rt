// The types of fields, F-9 to F-19.
// Numbers and no enum: a field of any other type is a field too (F-16).
pub const PADDING: u16 = 0xF501;

pub const MAC: u16 = 0xF502;

pub const FILTER_REQUEST: u16 = 0xF503;

pub const FILTER_RESPONSE: u16 = 0xF504;

pub const INFORMATION: u16 = 0xF505;

pub const NAME: u16 = 0xF5FF;
