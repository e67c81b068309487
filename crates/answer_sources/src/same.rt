//! Whether two values are the same, as clauses see them.

ghost use Rattle.std.specs.Prelude.{◌≡◌, IsTrue};

use edge_types::{Answer, Head, HeadFields, Reply};

/// Whether two answers are the same. Takes no memory.
///
/// Our profile.
pub fn same_answer(one: &Answer, other: &Answer) -> bool
    ensures { IsTrue result → one.now ≡ other.now }
{
    one.url() == other.url() && same_reply(one.reply(), other.reply())
}

fn same_reply(one: &Reply, other: &Reply) -> bool
    ensures { IsTrue result → one.now ≡ other.now }
{
    match (one, other) {
        (Reply::Failed, Reply::Failed) => true,
        (
            Reply::Got {
                head,
                control,
                body,
            },
            Reply::Got {
                head: other_head,
                control: other_control,
                body: other_body,
            },
        ) => same_head(head, other_head) && control == other_control && body == other_body,
        _ => false,
    }
}

fn same_head(one: &Head, other: &Head) -> bool
    ensures { IsTrue result → one.now ≡ other.now }
{
    let Head {
        status,
        content_type,
        fields,
    } = one;
    *status == other.status
        && *content_type == other.content_type
        && same_fields(fields, &other.fields)
}

#[tactic(auto, using(crate::proofs::SameLemmas::fields_decide))]
fn same_fields(one: &HeadFields, other: &HeadFields) -> bool
    ensures { IsTrue result → one.now ≡ other.now }
{
    one == other
}
