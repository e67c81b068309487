//! Reads the tree of a text from its tokens, one after another.
ghost use Rattle.std.specs.Prelude.{◌≡◌, ◌+◌, ◌≤◌, map, Ok, IfOk, OnOk};
ghost use Rattle.esi_scanner.specs.Scan.{scan_of};
ghost use Rattle.esi_tree.specs.Tree.{depth};
ghost use Rattle.esi_tree.specs.Shown.{element_of};
ghost use Rattle.esi_tree.specs.Answer.{tree_in, Gives};
ghost use Rattle.esi_tree.specs.Reading.{start, grown_page, put, after_text, after_remove, entered, left, after_tag, after, ended, tree_of_tokens, tree_of};
ghost use Rattle.esi_tree.specs.Items.{item_of};
ghost use Rattle.esi_tree.specs.State.{shown_child, state_of, some_if, EndsWell};

use crate::child::Child;
use crate::fault::TreeFault;
use crate::node::Node;
use crate::open_element::push_node;
use crate::open_elements::{OPEN_LIMIT, OpenElements};
use crate::tag::{is_white, opened_by, part_at, text_node};
use crate::tree::Template;
use edge_types::{NoMemory, SharedBytes};
use esi_scanner::{ElementName, Kind, Tag, Token, scan};
use std::alloc::Global;

// What has been read so far: the elements that are open, and the nodes outside them.
#[derive(Drop)]
struct Reader {
    open: OpenElements,
    content: Vec<Node>,
}

impl Reader {
    fn new(alloc: Global) -> Reader
        ensures { state_of result ≡ start }
    {
        Reader {
            open: OpenElements::new(alloc),
            content: Vec::new(alloc),
        }
    }

    // Adds one more child in the innermost open element.
    fn add(&mut self, child: Child) -> Result<(), NoMemory>
        ensures { OnOk result (state_of self.new ≡ put (shown_child child) (state_of self.old)) }
    {
        if self.open.is_empty() {
            add_to_page(&mut self.content, child)
        } else {
            self.open.add(child)
        }
    }

    // Reads a run of text. Where no run may be, only white space is allowed, and it adds nothing.
    #[tactic(auto, unfolding(crate::specs::Reading::after_text))]
    fn after_text(&mut self, alloc: Global, text: SharedBytes) -> Result<bool, NoMemory>
        ensures { IfOk result (λ goes_on. some_if goes_on (state_of self.new) ≡ after_text text (state_of self.old)) }
    {
        if self.open.is_run() {
            let node = text_node(alloc, self.open.in_vars(), text)?;
            self.add(Child::Element(node))?;
            Ok(true)
        } else {
            Ok(is_white(text.as_bytes()))
        }
    }

    #[tactic(auto, unfolding(crate::specs::Reading::after_remove))]
    fn after_remove(&mut self) -> Result<bool, NoMemory>
        ensures { IfOk result (λ goes_on. some_if goes_on (state_of self.new) ≡ after_remove (state_of self.old)) }
    {
        if !self.open.is_run() {
            return Ok(false);
        }
        self.add(Child::Element(Node::Nothing))?;
        Ok(true)
    }

    #[tactic(auto, unfolding(crate::specs::Reading::entered))]
    fn enter(&mut self, alloc: Global, tag: &Tag) -> Result<bool, NoMemory>
        ensures { IfOk result (λ goes_on. some_if goes_on (state_of self.new) ≡ entered tag.now.name tag.now.attributes (state_of self.old)) }
    {
        if !self.open.admits(tag.name) {
            return Ok(false);
        }
        let Some(element) = opened_by(alloc, tag)? else {
            return Ok(false);
        };
        self.open.push(element)?;
        Ok(true)
    }

    // Ends the innermost element, if it has this name.
    #[tactic(auto, unfolding(crate::specs::Reading::left))]
    fn leave(&mut self, name: ElementName) -> Result<bool, NoMemory>
        ensures { IfOk result (λ goes_on. some_if goes_on (state_of self.new) ≡ left name (state_of self.old)) }
    {
        let Some(element) = self.open.pop() else {
            return Ok(false);
        };
        if name != element.name() {
            return Ok(false);
        }
        let Some(child) = element.into_child() else {
            return Ok(false);
        };
        self.add(child)?;
        Ok(true)
    }

    // Reads an opening tag; a self-closing one counts as its end too.
    #[tactic(auto, unfolding(crate::specs::Reading::after_tag))]
    fn after_tag(&mut self, alloc: Global, tag: &Tag) -> Result<bool, NoMemory>
        ensures { IfOk result (λ goes_on. some_if goes_on (state_of self.new) ≡ after_tag tag.now (state_of self.old)) }
    {
        if self.open.len() >= OPEN_LIMIT {
            return Ok(false);
        }
        if !self.enter(alloc, tag)? {
            return Ok(false);
        }
        if tag.closed {
            self.leave(tag.name)
        } else {
            Ok(true)
        }
    }

    // Reads one more token, and says whether it can continue a template.
    #[tactic(auto, unfolding(crate::specs::Reading::after))]
    fn after(&mut self, alloc: Global, text: &SharedBytes, token: &Token) -> Result<bool, NoMemory>
        ensures { IfOk result (λ goes_on. some_if goes_on (state_of self.new) ≡ after (item_of text.now token.now) (state_of self.old)) }
    {
        match &token.kind {
            Kind::Text => self.after_text(alloc, part_at(text, token.span)?),
            Kind::Open(tag) => self.after_tag(alloc, tag),
            Kind::Close(name) => self.leave(*name),
            Kind::Remove => self.after_remove(),
            Kind::BlockStart | Kind::BlockEnd => Ok(true),
        }
    }

    // The template at the text's end, where no element may be open.
    fn ended(self, end: usize) -> Result<Template, TreeFault>
        requires { EndsWell (state_of self) }
        ensures { Gives result (ended (state_of self).frames (state_of self).content end) }
    {
        match self.open.innermost() {
            None => Ok(Template::of(self.content)),
            Some(_) => Err(TreeFault::Bad(end)),
        }
    }
}

// Adds one more child outside all elements; only a node can come there.
fn add_to_page(content: &mut Vec<Node>, child: Child) -> Result<(), NoMemory>
    ensures { OnOk result (map element_of content.new.items ≡ grown_page (shown_child child) (map element_of content.old.items)) }
{
    if let Child::Element(node) = child {
        push_node(content, node)?;
    }
    Ok(())
}

// Reads the template of a text with these tokens.
fn template_of(alloc: Global, text: &SharedBytes, tokens: &[Token]) -> Result<Template, TreeFault>
    requires { scan_of text.now ≡ Ok tokens.now }
    ensures { Gives result (tree_of_tokens text.now tokens.now) }
{
    let end = text.len();
    let mut reader = Reader::new(alloc);
    for token in tokens {
        if !reader.after(alloc, text, token)? {
            return Err(TreeFault::Bad(token.span.start));
        }
    }
    reader.ended(end)
}

/// Reads the template of a text. What the tree holds of the text is lent from its bytes.
///
/// The place of a fault is in bytes: that of the first token that can't continue a template, else
/// the text's length. A tag without an attribute that it needs, a test that can't be read, and an
/// element that is one too many open (`OPEN_LIMIT`), are reported at the start of their own tags. If
/// a text has no tokens, the place is that of the first malformed tag, else of the `<!--esi` without
/// its end.
///
/// `Bad` has the place; `NoMemory` if an allocation fails. Neither leaves anything behind.
///
/// Source: ESI Language Specification 1.0, "ESI Language"; which elements may be in which
/// others is our profile.
#[tactic(auto, unfolding(crate::specs::Reading::tree_of))]
pub fn template(alloc: Global, text: &SharedBytes) -> Result<Template, TreeFault>
    ensures tree { Gives result (tree_of text.now) }
    ensures shallow { IfOk result (λ template. depth (tree_in template) ≤ OPEN_LIMIT + 1) }
{
    let tokens = scan(alloc, text.as_bytes())?;
    template_of(alloc, text, tokens.as_slice())
}
