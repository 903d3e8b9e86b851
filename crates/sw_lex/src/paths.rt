//! Where a header is looked up.

ghost use Rattle.std.specs.Prelude.{◌≡◌, ◌≢◌, ◌≤◌, ◌<◌, ◌++◌, false, length, map, get_or, IfSome, IfNone};
ghost use Rattle.std.specs.Char.{to_ascii_uppercase};
ghost use Rattle.sw_base.specs.Limits.{longest_mnemonic};
ghost use Rattle.sw_lex.specs.Unit.{unit_of, heading_of};
ghost use Rattle.sw_lex.specs.Values.{unnumbered};
ghost use Rattle.sw_lex.specs.Meaning.{path_of, capitals, looked_up, all_but_last, path_after, asked, IsNone};
ghost use Rattle.sw_lex.specs.Found.{IsFound};
ghost use Rattle.sw_lex.specs.Headed.{header_nodes, header_part};
ghost use Rattle.sw_lex.specs.Packed.{last_bytes};
ghost use Rattle.sw_lex.specs.Split.{nodes_of};
ghost use Rattle.sw_lex.specs.Table.{entries};

use crate::headers::{find_kept, groups_at, path_groups};
use crate::packing::Word;
use crate::path::Path;
use crate::raw_unit::RawUnit;
use crate::table::HeaderMeaning;
use crate::unit::Header;
use crate::values::unnumbered;
use arrayvec::ArrayVec;
use sw_base::{MNEMONIC_BYTES, split_once};

/// The first letter of a header.
fn letter_of(nodes: &[u8]) -> u8
    ensures { result ≡ get_or nodes.now 0 0 }
{
    match nodes {
        [] => 0,
        [letter, ..] => *letter,
    }
}

/// The command that a unit's header is from the root. Where it is one, the path is then that of the next unit.
#[inline(always)]
fn find_from_root(unit: &RawUnit<'_>, letter: u8, path: &mut Path) -> Option<(HeaderMeaning, u8)>
    requires root { looked_up (heading_of unit.now.header) (path_of path.old) ≡ header_nodes unit.now.header }
    requires begins { header_part unit.now.header ≡ (false, to_ascii_uppercase letter) }
    ensures some { IfSome result (λ x. IsFound entries (asked (unit_of unit.now) (path_of path.old)) unit.now.query
        x.0 x.1) }
    ensures onward { IfSome result (λ _. path_of path.new
        ≡ capitals (all_but_last (looked_up (heading_of unit.now.header) (path_of path.old)))) }
    ensures none { IfNone result (IsNone (asked (unit_of unit.now) (path_of path.old)) unit.now.query) }
    ensures stays { IfNone result (path_of path.new ≡ path_of path.old) }
{
    match find_kept(path_groups(letter, unit.query), unit.words) {
        None => None,
        Some(found) => {
            path.letter = letter;
            path.nodes.count = 0;
            path.nodes.append(unit.words);
            path.nodes.count -= 1;
            Some(found)
        }
    }
}

/// The same below the path, which has a node.
#[inline(always)]
fn find_below(unit: &RawUnit<'_>, path: &mut Path) -> Option<(HeaderMeaning, u8)>
    requires below { looked_up (heading_of unit.now.header) (path_of path.old)
        ≡ path_of path.old ++ header_nodes unit.now.header }
    requires some { path.old.nodes.count ≢ 0 }
    ensures some { IfSome result (λ x. IsFound entries (asked (unit_of unit.now) (path_of path.old)) unit.now.query
        x.0 x.1) }
    ensures onward { IfSome result (λ _. path_of path.new
        ≡ capitals (all_but_last (looked_up (heading_of unit.now.header) (path_of path.old)))) }
    ensures none { IfNone result (IsNone (asked (unit_of unit.now) (path_of path.old)) unit.now.query) }
    ensures stays { IfNone result (path_of path.new ≡ path_of path.old) }
{
    let before = path.nodes.count;
    path.nodes.append(unit.words);
    match find_kept(path_groups(path.letter, unit.query), path.nodes.as_slice()) {
        None => {
            path.nodes.count = before;
            None
        }
        Some(found) => {
            path.nodes.count -= 1;
            Some(found)
        }
    }
}

/// The command that a unit's header is below the path. Where it is one, the path is then that of the next unit.
#[inline(always)]
pub fn find_unit(unit: &RawUnit<'_>, path: &mut Path) -> Option<(HeaderMeaning, u8)>
    ensures some { IfSome result (λ x. IsFound entries (asked (unit_of unit.now) (path_of path.old)) unit.now.query
        x.0 x.1) }
    ensures onward { IfSome result (λ _. path_of path.new
        ≡ path_after (heading_of unit.now.header) (path_of path.old)) }
    ensures none { IfNone result (IsNone (asked (unit_of unit.now) (path_of path.old)) unit.now.query) }
    ensures stays { IfNone result (path_of path.new ≡ path_of path.old) }
{
    match unit.header {
        Header::Common(name) => find_kept(groups_at(name, unit.query), unit.words),
        Header::Path { leading, nodes } => {
            if leading || path.nodes.count == 0 {
                find_from_root(unit, letter_of(nodes), path)
            } else {
                find_below(unit, path)
            }
        }
    }
}

/// A node of a header that was found, in capitals.
pub type Node = ArrayVec<u8, MNEMONIC_BYTES>;

/// The last bytes of a number, in capitals: at most `most`, and without the one before them.
fn text_of(number: Word, most: usize) -> Node
    requires { most ≤ longest_mnemonic }
    ensures { result.items ≡ map to_ascii_uppercase (last_bytes most number) }
{
    if most == 0 || number <= 1 {
        return Node::new();
    }
    let mut text = text_of(number / 256, most - 1);
    text.push(((number % 256) as u8).to_ascii_uppercase());
    text
}

/// The texts of a path's nodes.
pub fn texts(path: &Path) -> ArrayVec<Node, 4>
    ensures { map (λ w. w.items) result.items ≡ path_of path.now }
{
    let mut texts = ArrayVec::new();
    for number in path.nodes.as_slice() {
        texts.push(text_of(*number, MNEMONIC_BYTES));
    }
    texts
}

/// The same as slices.
fn slices(texts: &[Node]) -> ArrayVec<&[u8], 4>
    requires { length texts.now ≤ 4 }
    ensures { map (λ w. w.now) result.items ≡ map (λ w. w.items) texts.now }
{
    let mut nodes = ArrayVec::new();
    for text in texts {
        nodes.push(text.as_slice());
    }
    nodes
}

/// The nodes of a text after those given; none where they are more than four, as in no header of the table.
fn joined<'a>(nodes: ArrayVec<&'a [u8], 4>, text: &'a [u8]) -> Option<ArrayVec<&'a [u8], 4>>
    ensures some { IfSome result (λ x. map (λ w. w.now) x.items ≡ map (λ w. w.now) nodes.entry.items
        ++ nodes_of text.now) }
    ensures none { IfNone result (4 < length (map (λ w. w.now) nodes.entry.items ++ nodes_of text.now)) }
{
    let mut nodes = nodes;
    let mut rest = text;
    'nodes: loop {
        if nodes.is_full() {
            return None;
        }
        match split_once(rest, b':') {
            Some((node, more)) => {
                nodes.push(node);
                rest = more;
            }
            None => {
                nodes.push(rest);
                return Some(nodes);
            }
        }
    }
}

/// The nodes as which a header is looked up below these, as texts; none where they are more than four.
pub fn texts_of<'a>(header: Header<'a>, below: &'a [Node]) -> Option<ArrayVec<&'a [u8], 4>>
    requires { length below.now ≤ 4 }
    ensures some { IfSome result (λ x. map (λ w. w.now) x.items
        ≡ looked_up (heading_of header.entry) (map (λ w. w.items) below.now)) }
    ensures none { IfNone result (4 < length (looked_up (heading_of header.entry) (map (λ w. w.items) below.now))) }
{
    match header {
        Header::Common(name) => {
            let mut nodes = ArrayVec::new();
            nodes.push(name);
            Some(nodes)
        }
        Header::Path { leading, nodes } => {
            if leading {
                joined(ArrayVec::new(), nodes)
            } else {
                joined(slices(below), nodes)
            }
        }
    }
}

/// The nodes without a trigger layer's number.
pub fn unnumbered_all<'a>(nodes: &[&'a [u8]]) -> ArrayVec<&'a [u8], 4>
    requires { length nodes.now ≤ 4 }
    ensures { map (λ w. w.now) result.items ≡ map (λ w. unnumbered w.now) nodes.now }
{
    let mut plain = ArrayVec::new();
    for node in nodes {
        plain.push(unnumbered(node));
    }
    plain
}
