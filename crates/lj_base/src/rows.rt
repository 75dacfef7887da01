/// The blocks of an upload, counted by how many of their points are among the first points of a cell: `counts[l]`
/// blocks have `l` such points.
#[derive(Clone, Copy, Debug, PartialEq, Eq)]
pub struct Row {
    pub upload: u32,
    pub counts: [u32; 26],
}
