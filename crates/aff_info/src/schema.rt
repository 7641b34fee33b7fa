//! The IRIs of the statements' objects (AFF4 Standard v1.0, and XML Schema for datatypes).

pub const IMAGE_STREAM: &str = "http://aff4.org/Schema#ImageStream";

pub const MAP: &str = "http://aff4.org/Schema#Map";

pub const NULL_COMPRESSOR: &str = "http://aff4.org/Schema#NullCompressor";

pub const ZERO: &str = "http://aff4.org/Schema#Zero";

pub const UNKNOWN: &str = "http://aff4.org/Schema#UnknownData";

pub const UNREADABLE: &str = "http://aff4.org/Schema#UnreadableData";

pub const MD5: &str = "http://aff4.org/Schema#MD5";

pub const SHA1: &str = "http://aff4.org/Schema#SHA1";

pub const SHA256: &str = "http://aff4.org/Schema#SHA256";

pub const SHA512: &str = "http://aff4.org/Schema#SHA512";

pub const XSD_INT: &str = "http://www.w3.org/2001/XMLSchema#int";

pub const XSD_INTEGER: &str = "http://www.w3.org/2001/XMLSchema#integer";

pub const XSD_LONG: &str = "http://www.w3.org/2001/XMLSchema#long";

pub const XSD_UNSIGNED_LONG: &str = "http://www.w3.org/2001/XMLSchema#unsignedLong";

pub const XSD_STRING: &str = "http://www.w3.org/2001/XMLSchema#string";
