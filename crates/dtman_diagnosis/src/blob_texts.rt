//! What is wanted of a blob's word, in words.

use dt_blob::Wanted;

/// What must stand there.
pub(crate) fn wanted_text(wanted: Wanted) -> &'static str {
    match wanted {
        Wanted::Memory => "memory",
        Wanted::FewerBytes => "the end of the file",
        Wanted::Header => "a header of 40 bytes",
        Wanted::MagicNumber => "the magic number 0xd00dfeed",
        Wanted::Version => "version 16 or above",
        Wanted::LastCompatible => "version 17 or below, by which the blob can be read",
        Wanted::SizeInFile => "a size that the file has",
        Wanted::SizeOfHeader => "a size of 40 or more",
        Wanted::StructureInBlob => "a structure block inside the blob",
        Wanted::StructureEndInBlob => "a structure block that ends inside the blob",
        Wanted::StringsInBlob => "a strings block inside the blob",
        Wanted::StringsEndInBlob => "a strings block that ends inside the blob",
        Wanted::StructureAligned => "a structure block on a multiple of 4",
        Wanted::ReservesAligned => "reservations on a multiple of 8",
        Wanted::ReservesInBlob => "reservations inside the blob",
        Wanted::ReservesEnd => "a pair of zeros that ends the reservations",
        _ => wanted_in_structure(wanted).unwrap_or(""),
    }
}

/// What must stand there, of a word of the structure block.
pub(crate) fn wanted_in_structure(wanted: Wanted) -> Option<&'static str> {
    Some(match wanted {
        Wanted::TokenInBlock => "a token before the structure block ends",
        Wanted::TokenWord => "a token, which is 1, 2, 3, 4 or 9",
        Wanted::NodeNameEnd => "a node's name, which ends with a zero byte",
        Wanted::NodeNameInBlock => "a node's name with its padding in the structure block",
        Wanted::PropertyWords => "a property's length and the place of its name",
        Wanted::ValueInBlock => "the length of a value in the structure block",
        Wanted::NamePlace => "a place in the strings block",
        Wanted::NameEnd => "the place of a name, which ends with a zero byte",
        Wanted::RootBegin => "BEGIN_NODE, 1, of the root",
        Wanted::EndBehindRoot => "END, 9, behind the root",
        Wanted::NodesEnded => "END_NODE, 2, of each node before END",
        Wanted::BlockEnd => "the end of the structure block behind END",
        Wanted::UnnamedRoot => "a root without a name",
        Wanted::Depth => "a node at most 64 levels below the root",
        Wanted::NodeName => "a lawful name of a node",
        Wanted::PropertyName => "the place of a lawful name",
        Wanted::NodeBehindChild => "BEGIN_NODE, 1, or END_NODE, 2, behind a child",
        Wanted::OtherName => "another name than those before it in the node",
        _ => return None,
    })
}
