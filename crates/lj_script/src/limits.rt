/// The most clients of one script.
pub const MAX_CLIENTS: usize = 16;

/// The most commands of one client.
pub const MAX_COMMANDS: usize = 4096;
