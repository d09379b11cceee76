// The tick at which a gate or a page is opened.
use source::reply::HORIZON;
use source::setting::Setting;

// An opening tick from 0 to the horizon.
pub type Opening = Setting<0, HORIZON>;
