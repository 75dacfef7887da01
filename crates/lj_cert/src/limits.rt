/// The most uploads of one certificate.
pub const MAX_CERT_UPLOADS: usize = 4096;
