//! Options of IPv4 and TCP headers, and the areas that hold them.
#![tactic(auto)]

mod area;
mod laws;
mod option;
mod part;

pub use area::{OptionArea, OptionRegion};
pub use laws::{
    ip_option_is_its_octets, option_area_is_its_octets, option_area_is_refused_by_row,
    option_area_is_sound, option_fields_are_sound, option_fields_are_their_octets,
    option_region_is_sound, tcp_option_is_its_octets,
};
pub use option::{
    ByKind, Data, DataOf, IsKind, IsOptionLength, Kind, KindOf, Length, Nothing, OptionFields,
    RawOption,
};
pub use part::OptionAreaPart;
