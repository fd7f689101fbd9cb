//! What follows of the templates: nothing that a value says is more than a value.
ghost use Rattle.std.specs.Prelude.{List};
ghost use Rattle.status_page.specs.declared.escape.Language.{Language};
ghost use Rattle.status_page.specs.declared.template.Section.{Section};
ghost use Rattle.status_page.specs.declared.value.StatusValue.{StatusValue};
ghost use Rattle.status_page.specs.Escapes.{IsEscaped};
ghost use Rattle.status_page.specs.Templates.{filled, own_texts};

/// A template that is filled is made of its own texts, of escapes, and of single bytes that mean nothing in its
/// language, whatever is told of the server. So each `<` of a page and each quote of a label is one of the template.
#[tactic(auto, using(crate::proofs::EscapeLemmas::filled_is))]
pub fn values_stand_escaped()
    ensures { (language : Language) (v : StatusValue) (template : List Section) →
        IsEscaped language (own_texts template) (filled language v template) }
{}
