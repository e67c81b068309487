//! Answers made ready. Clauses see the answer, whose form follows from it.
ghost use Rattle.std.specs.Prelude.{◌≡◌, IfOk};
ghost use Rattle.std.specs.Arc.{arc_value};
ghost use Rattle.std.specs.Option.{option_copied};
ghost use Rattle.plan_compiler.specs.Prepared.{IsForm, inlines_of};
ghost use Rattle.plan_compiler.specs.Urls.{entry_of, url_at};

use crate::compiler::compile;
use crate::inline::Inline;
use crate::inline_urls::InlineUrls;
use crate::plan::Plan;
use edge_types::{Answer, NoMemory, PageUrl, SharedAnswer};
use esi_tree::{TreeFault, template};
use std::alloc::Global;
use std::marker::Model;
use std::sync::Arc;

/// What the body of an answer is.
#[derive(Drop)]
pub enum Form {
    /// It isn't processed.
    Plain,
    /// A template, as its plan.
    Planned(Plan),
    /// Not a template, from this place on.
    BadAt(usize),
}

impl Form {
    // The bodies that can be included by their names.
    fn inlines(&self) -> &[Inline]
        ensures { result.now ≡ inlines_of self.now }
    {
        match self {
            Form::Planned(plan) => plan.inlines.as_slice(),
            Form::Plain | Form::BadAt(_) => &[],
        }
    }
}

/// An answer, what its body is, and the URLs of the inlines in it.
#[derive(Drop)]
struct Ready {
    answer: SharedAnswer,
    form: Form,
    urls: InlineUrls,
}

/// One of several owners of an answer that was made ready.
#[derive(Drop)]
pub struct Prepared {
    ready: Arc<Ready>,
}

impl Model for Prepared {
    ghost use Rattle.std.specs.Arc.{arc_value};
    ghost use Rattle.edge_types.specs.Answered.{Answered};
    ghost use Rattle.plan_compiler.specs.Prepared.{IsReady};

    ghost Value = { Answered };

    ghost view = { λ p. (arc_value p.ready).answer };

    ghost invariant = { λ p. IsReady (arc_value p.ready).answer (arc_value p.ready).form (arc_value p.ready).urls };
}

impl Prepared {
    /// The answer, made ready: a body that is processed is read and compiled once, here.
    ///
    /// `NoMemory` if an allocation fails; the answer is dropped then.
    ///
    /// Our profile.
    pub fn of(alloc: Global, answer: Arc<Answer>) -> Result<Prepared, NoMemory>
        ensures { IfOk result (λ prepared. prepared ≡ arc_value answer) }
    {
        let form = form_of(alloc, &answer)?;
        let urls = InlineUrls::of(alloc, answer.url(), form.inlines())?;
        let ready = Ready {
            answer: SharedAnswer::of(answer),
            form,
            urls,
        };
        Ok(Prepared {
            ready: Arc::new(alloc, ready)?,
        })
    }

    /// Lends the answer. Takes no memory.
    pub fn answer(&self) -> &Arc<Answer>
        ensures { arc_value result.now ≡ self.now }
    {
        self.ready.answer.as_arc()
    }

    /// Lends the URL of the answer. Takes no memory.
    pub fn url(&self) -> &PageUrl
        ensures { result.now ≡ self.now.url }
    {
        self.ready.answer.get().url()
    }

    /// Lends what the body of the answer is. Takes no memory.
    pub fn form(&self) -> &Form
        ensures { IsForm self.now result.now }
    {
        &self.ready.form
    }

    /// The URL that the name of the inline with this number denotes, from 0, in text order; `None`
    /// if it doesn't denote one, and past the last. Takes no memory.
    ///
    /// Our profile.
    pub fn inline_url(&self, i: usize) -> Option<&PageUrl>
        ensures { option_copied result ≡ url_at self.now i }
    {
        self.ready.urls.url(i)
    }

    /// The first inline, in text order, whose name denotes this URL in the answer's template. It
    /// costs one look-up in a map. Takes no memory.
    ///
    /// Our profile.
    pub fn inline_for(&self, url: &PageUrl) -> Option<&Inline>
        ensures { option_copied result ≡ entry_of self.now url.now }
    {
        let number = self.ready.urls.first(url)?;
        self.ready.form.inlines().get(number)
    }

    /// A second owner. `NoMemory` if an allocation fails; none is made then.
    pub fn share(&self) -> Result<Prepared, NoMemory>
        ensures { IfOk result (λ shared. shared ≡ self.now) }
    {
        Ok(Prepared {
            ready: Arc::try_clone(&self.ready)?,
        })
    }
}

// What the body of an answer is.
fn form_of(alloc: Global, answer: &Arc<Answer>) -> Result<Form, NoMemory>
    ensures { IfOk result (λ form. IsForm (arc_value answer.now) form) }
{
    if !answer.processed() {
        return Ok(Form::Plain);
    }
    let body = answer.share_body()?;
    match template(alloc, &body) {
        Ok(template) => Ok(Form::Planned(compile(alloc, answer.url(), &template)?)),
        Err(TreeFault::Bad(place)) => Ok(Form::BadAt(place)),
        Err(TreeFault::NoMemory) => Err(NoMemory),
    }
}
