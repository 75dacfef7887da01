/// The most bytes of a certificate that is audited.
pub const MAX_CERT_INPUT: u64 = 1 << 27;
