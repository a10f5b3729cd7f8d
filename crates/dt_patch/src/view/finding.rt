//! Nodes by name and by path.
ghost use Rattle.std.specs.Prelude.{◌≡◌, ◌↔◌, ◌++◌, ◌∷◌, List, IsErrOf, IsOkAnd, true, false};
ghost use Rattle.std.specs.Option.{option_copied};
ghost use Rattle.std.specs.List.{slice_split};
ghost use Rattle.dt_tree.specs.NodeData.{NodeData, Siblings};
ghost use Rattle.dt_tree.specs.Path.{is_path, is_slash, path_names};
ghost use Rattle.dt_tree.specs.PathMap.{child_named, node_at};
ghost use Rattle.dt_tree.specs.TreeData.{TreeData};
ghost use Rattle.dt_tree.specs.declared.property.Property.{Property};
ghost use Rattle.dt_blob.specs.Token.{Token, begin_node, property_tokens};
ghost use Rattle.dt_patch.specs.View.Aliases.{TellsAlias, alias_in};
ghost use Rattle.dt_patch.specs.View.Places.{TellsPlace};
ghost use Rattle.dt_patch.specs.View.Reaching.{Reached, TellsReached, before_child, before_node};
ghost use Rattle.dt_patch.specs.View.Private.Reading.{inside_tokens};
ghost use Rattle.dt_patch.specs.View.Shows.{Views};
ghost use Rattle.dt_patch.specs.View.Standing.{Ahead, HasNoNode, StandsAt, ends};

use crate::view::cells::text;
use crate::view::error::ViewError;
use crate::view::nodes::NodeOffset;
use crate::view::view::View;
use dt_blob::BlobToken;
use dt_tree::is_path;

impl<'a> View<'a> {
    // The first child of this name, from inside a node on.
    fn child_from(&self, from: usize, name: &[u8]) -> Result<Option<NodeOffset>, ViewError>
        ensures found { (ps : List Property) (nodes : Siblings) (last : Token) → ends last ≡ true
            → Ahead self.now from (inside_tokens ps nodes last)
            → TellsPlace self.now result (child_named nodes name.now) }
        ensures reached { (ps : List Property) (nodes : Siblings) (last : Token) (before : List Token) → ends last ≡ true
            → Ahead self.now from (inside_tokens ps nodes last) → Reached self.now from before
            → TellsReached self.now result (before ++ (property_tokens ps ++ before_child nodes name.now)) }
    {
        let mut at = from;
        'tokens: loop {
            let found = self.token_from(at)?;
            match found.token {
                BlobToken::BeginNode(own) => {
                    if own == name {
                        return Ok(Some(NodeOffset { at: found.at }));
                    }
                    at = self.node_end(found.next)?;
                }
                BlobToken::Property(_, _) => at = found.next,
                BlobToken::EndNode => return Ok(None),
                BlobToken::End => return Ok(None),
                BlobToken::Nop => return Err(ViewError::BadOffset),
            }
        }
    }

    /// The child of this name, unit address and all: none where a node has no such child.
    pub fn child(&self, node: NodeOffset, name: &[u8]) -> Result<Option<NodeOffset>, ViewError>
        ensures stands { (d : NodeData) → StandsAt self.now node.at d
            → TellsPlace self.now result (child_named d.children name.now) }
        ensures reached { (d : NodeData) (before : List Token) → StandsAt self.now node.at d → Reached self.now node.at before
            → TellsReached self.now result (before ++ begin_node d.name ∷ (property_tokens d.properties ++ before_child d.children name.now)) }
        ensures refused { HasNoNode self.now node.at → result ≡ Err ViewError.BadOffset }
    {
        let begun = self.begin(node.at)?;
        self.child_from(begun.next, name)
    }

    // The node at names behind one another, from a node on.
    fn find_below(&self, from: NodeOffset, names: &[u8]) -> Result<Option<NodeOffset>, ViewError>
        ensures found { (d : NodeData) → StandsAt self.now from.at d
            → TellsPlace self.now result (node_at d (slice_split is_slash names.now)) }
        ensures reached { (d : NodeData) (before : List Token) → StandsAt self.now from.at d → Reached self.now from.at before
            → TellsReached self.now result (before ++ before_node d (slice_split is_slash names.now)) }
    {
        let mut node = from;
        for name in names.split(|byte| *byte == b'/') {
            match self.child(node, name)? {
                None => return Ok(None),
                Some(child) => node = child,
            }
        }
        Ok(Some(node))
    }

    /// The node at a path: none where there is none. Fails with `BadPath` where the bytes are no path.
    pub fn find(&self, path: &[u8]) -> Result<Option<NodeOffset>, ViewError>
        ensures found { (tree : TreeData) → Views self.now tree → is_path path.now ≡ true
            → TellsPlace self.now result (node_at tree.root (path_names path.now)) }
        // What stands before the node in the tree's tokens stands before the place.
        ensures reached { (tree : TreeData) → Views self.now tree → is_path path.now ≡ true
            → TellsReached self.now result (before_node tree.root (path_names path.now)) }
        ensures bad_path { IsErrOf result ViewError.BadPath ↔ (is_path path.now ≡ false) }
    {
        if !is_path(path) {
            return Err(ViewError::BadPath);
        }
        let Ok(root) = self.root() else {
            return Err(ViewError::BadOffset);
        };
        if path.len() < 2 {
            return Ok(Some(root));
        }
        match self.find_below(root, &path[1..]) {
            Ok(node) => Ok(node),
            Err(_) => Err(ViewError::BadOffset),
        }
    }

    /// The text that `/aliases` has under a name.
    pub(crate) fn alias_text(&self, name: &[u8]) -> Result<Option<&'a [u8]>, ViewError>
        ensures { (tree : TreeData) → Views self.now tree
            → IsOkAnd result (λ path. option_copied path ≡ alias_in tree.root name.now) }
    {
        let Some(aliases) = self.find(b"/aliases")? else {
            return Ok(None);
        };
        match self.value(aliases, name)? {
            None => Ok(None),
            Some(value) => Ok(text(value)),
        }
    }

    /// The node at the path that an alias stands for: none where `/aliases` has no such property. Fails with `BadPath` where its text
    /// is no path.
    pub fn alias(&self, name: &[u8]) -> Result<Option<NodeOffset>, ViewError>
        ensures { (tree : TreeData) → Views self.now tree
            → TellsAlias self.now tree.root (alias_in tree.root name.now) result }
    {
        match self.alias_text(name)? {
            None => Ok(None),
            Some(path) => self.find(path),
        }
    }
}
