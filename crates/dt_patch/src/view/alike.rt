//! Nodes by names that may lack their unit address.
ghost use Rattle.std.specs.Prelude.{◌≡◌, ◌<◌, List, IfSome, length, position, option_and_then, true};
ghost use Rattle.std.specs.List.{list_any, slice_split};
ghost use Rattle.dt_tree.specs.NodeData.{NodeData, Siblings};
ghost use Rattle.dt_tree.specs.Path.{is_slash};
ghost use Rattle.dt_tree.specs.TreeData.{TreeData};
ghost use Rattle.dt_tree.specs.declared.property.Property.{Property};
ghost use Rattle.dt_blob.specs.Token.{Token};
ghost use Rattle.dt_patch.specs.View.Aliases.{alias_in};
ghost use Rattle.dt_patch.specs.View.Alike.{TellsAliased, TellsBelow, TellsLike, alias_name, base_name, behind_alias, child_like, down_like, is_absolute, is_at, is_like, node_like, node_like_at};
ghost use Rattle.dt_patch.specs.View.Places.{TellsPlace};
ghost use Rattle.dt_patch.specs.View.Private.Reading.{inside_tokens};
ghost use Rattle.dt_patch.specs.View.Shows.{Views};
ghost use Rattle.dt_patch.specs.View.Standing.{Ahead, HasNoNode, StandsAt, ends};

use crate::view::error::ViewError;
use crate::view::nodes::NodeOffset;
use crate::view::view::View;
use dt_blob::BlobToken;

fn has_at(name: &[u8]) -> bool
    ensures { result ≡ list_any is_at name.now }
{
    name.iter().any(|byte| *byte == b'@')
}

fn at_in(name: &[u8]) -> Option<usize>
    ensures place { result ≡ position is_at name.now }
    ensures inside { IfSome result (λ at. at < length name.now) }
{
    name.iter().position(|byte| *byte == b'@')
}

// What stands before the unit address.
fn base_name(name: &[u8]) -> &[u8]
    ensures { result.now ≡ base_name name.now }
{
    match at_in(name) {
        None => name,
        Some(at) => &name[..at],
    }
}

/// Whether a name is the one that is asked for, or has a unit address where none is asked for.
fn is_like(name: &[u8], asked: &[u8]) -> bool
    ensures { result ≡ is_like name.now asked.now }
{
    if has_at(asked) {
        return name == asked;
    }
    base_name(name) == asked
}

fn slash_in(path: &[u8]) -> Option<usize>
    ensures place { result ≡ position is_slash path.now }
    ensures inside { IfSome result (λ at. at < length path.now) }
{
    path.iter().position(|byte| *byte == b'/')
}

fn alias_name(path: &[u8]) -> &[u8]
    ensures { result.now ≡ alias_name path.now }
{
    match slash_in(path) {
        None => path,
        Some(end) => &path[..end],
    }
}

fn behind_alias(path: &[u8]) -> &[u8]
    ensures { result.now ≡ behind_alias path.now }
{
    match slash_in(path) {
        None => &[],
        Some(end) => &path[end..],
    }
}

fn is_absolute(path: &[u8]) -> bool
    ensures { result ≡ is_absolute path.now }
{
    match path.first() {
        None => false,
        Some(first) => *first == b'/',
    }
}

impl<'a> View<'a> {
    // The first child like a name, from inside a node on.
    fn child_like_from(&self, from: usize, name: &[u8]) -> Result<Option<NodeOffset>, ViewError>
        ensures { (ps : List Property) (nodes : Siblings) (last : Token) → ends last ≡ true
            → Ahead self.now from (inside_tokens ps nodes last)
            → TellsPlace self.now result (child_like nodes name.now) }
    {
        let mut at = from;
        'tokens: loop {
            let found = self.token_from(at)?;
            match found.token {
                BlobToken::BeginNode(own) => {
                    if is_like(own, name) {
                        return Ok(Some(NodeOffset { at: found.at }));
                    }
                    at = self.node_end(found.next)?;
                }
                BlobToken::Property(_, _) => at = found.next,
                BlobToken::EndNode => return Ok(None),
                BlobToken::End => return Ok(None),
                BlobToken::Nop => return Err(ViewError::BadOffset),
            }
        }
    }

    /// The first child whose name is this one or, where no unit address is asked for, this one behind which a unit address stands.
    pub fn child_like(&self, node: NodeOffset, name: &[u8]) -> Result<Option<NodeOffset>, ViewError>
        ensures stands { (d : NodeData) → StandsAt self.now node.at d
            → TellsPlace self.now result (child_like d.children name.now) }
        ensures refused { HasNoNode self.now node.at → result ≡ Err ViewError.BadOffset }
    {
        let begun = self.begin(node.at)?;
        self.child_like_from(begun.next, name)
    }

    // The node that a name leads to: nothing between two slashes leads nowhere else.
    fn down_like(&self, node: NodeOffset, name: &[u8]) -> Result<Option<NodeOffset>, ViewError>
        ensures { (d : NodeData) → StandsAt self.now node.at d
            → TellsPlace self.now result (down_like d name.now) }
    {
        if name.is_empty() {
            return Ok(Some(node));
        }
        self.child_like(node, name)
    }

    // The node at names behind one another, from a node on.
    fn find_like_below(
        &self,
        from: NodeOffset,
        names: &[u8],
    ) -> Result<Option<NodeOffset>, ViewError>
        ensures { (d : NodeData) → StandsAt self.now from.at d
            → TellsPlace self.now result (node_like d (slice_split is_slash names.now)) }
    {
        let mut node = from;
        for name in names.split(|byte| *byte == b'/') {
            match self.down_like(node, name)? {
                None => return Ok(None),
                Some(next) => node = next,
            }
        }
        Ok(Some(node))
    }

    // The node at a path from the root on.
    fn find_like_root(&self, path: &[u8]) -> Result<Option<NodeOffset>, ViewError>
        ensures { (tree : TreeData) → Views self.now tree
            → TellsPlace self.now result (node_like_at tree.root path.now) }
    {
        let root = self.root()?;
        self.find_like_below(root, path)
    }

    // The node at an alias's path, and below it at the names behind the alias.
    fn find_like_alias(&self, text: &[u8], names: &[u8]) -> Result<Option<NodeOffset>, ViewError>
        ensures { (tree : TreeData) → Views self.now tree → TellsPlace self.now result
            (option_and_then (λ d. node_like_at d names.now) (node_like_at tree.root text.now)) }
    {
        match self.find_like_root(text)? {
            None => Ok(None),
            Some(node) => self.find_like_below(node, names),
        }
    }

    fn find_like_text(&self, text: &[u8], names: &[u8]) -> Result<Option<NodeOffset>, ViewError>
        ensures { (tree : TreeData) → Views self.now tree
            → TellsBelow self.now tree.root text.now names.now (is_absolute text.now) result }
    {
        if is_absolute(text) {
            return self.find_like_alias(text, names);
        }
        Err(ViewError::BadPath)
    }

    // The node at a path that begins with an alias.
    fn find_like_by_alias(&self, path: &[u8]) -> Result<Option<NodeOffset>, ViewError>
        ensures { (tree : TreeData) → Views self.now tree → TellsAliased self.now tree.root
            (alias_in tree.root (alias_name path.now)) (behind_alias path.now) result }
    {
        match self.alias_text(alias_name(path))? {
            None => Err(ViewError::BadPath),
            Some(text) => self.find_like_text(text, behind_alias(path)),
        }
    }

    /// The node at a path as libfdt finds it: from the root behind a slash, else from the node that its first name is an alias of. A
    /// name may lack its unit address, and any number of slashes stands between two names.
    ///
    /// Fails with `BadPath` where a path begins with no slash and no alias, or its alias's text with no slash.
    pub fn find_like(&self, path: &[u8]) -> Result<Option<NodeOffset>, ViewError>
        ensures { (tree : TreeData) → Views self.now tree → TellsLike self.now tree.root path.now result }
    {
        if is_absolute(path) {
            return self.find_like_root(path);
        }
        self.find_like_by_alias(path)
    }
}
