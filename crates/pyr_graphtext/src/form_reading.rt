// From the tokens of a line to its form.
ghost use Rattle.pyr_lex.specs.Token.{tokens_in};
ghost use Rattle.pyr_graphtext.specs.FormReading as spec;
ghost use Rattle.pyr_graphtext.specs.FormReading.{Gives};

use crate::form::Form;
use crate::line_fault::LineFault;
use pyr_lex::{SpannedToken, Token, Word};
use pyr_num::{Name, NameList};
use sqlite_items::Items;
use std::alloc::Global;

fn name_in(token: &SpannedToken) -> Result<Name, LineFault>
    ensures { Gives (λ n. n) result (spec.name_in token.now.token) }
{
    match token.token {
        Token::Name(name) => Ok(name),
        _ => Err(LineFault::Text),
    }
}

fn number_in(token: &SpannedToken) -> Result<u64, LineFault>
    ensures { Gives (λ n. n) result (spec.number_in token.now.token) }
{
    match token.token {
        Token::Number(number) => Ok(number),
        _ => Err(LineFault::Text),
    }
}

#[tactic(auto, unfolding(crate::specs::FormReading::data_form))]
fn data_form(tokens: &[SpannedToken]) -> Result<Form, LineFault>
    ensures { Gives (λ f. f) result (spec.data_form (tokens_in tokens.now)) }
{
    let [name, words, comm] = tokens else {
        return Err(LineFault::Text);
    };
    let name = name_in(name)?;
    let words = number_in(words)?;
    let comm = number_in(comm)?;
    Ok(Form::Data(name, words, comm))
}

#[tactic(auto, unfolding(crate::specs::FormReading::task_form))]
fn task_form(tokens: &[SpannedToken]) -> Result<Form, LineFault>
    ensures { Gives (λ f. f) result (spec.task_form (tokens_in tokens.now)) }
{
    let [name, cost] = tokens else {
        return Err(LineFault::Text);
    };
    let name = name_in(name)?;
    let cost = number_in(cost)?;
    Ok(Form::Task(name, cost))
}

#[tactic(auto, unfolding(crate::specs::FormReading::print_form))]
fn print_form(tokens: &[SpannedToken]) -> Result<Form, LineFault>
    ensures { Gives (λ f. f) result (spec.print_form (tokens_in tokens.now)) }
{
    let [name] = tokens else {
        return Err(LineFault::Text);
    };
    let name = name_in(name)?;
    Ok(Form::Print(name))
}

#[tactic(auto, unfolding(crate::specs::FormReading::end_form))]
fn end_form(tokens: &[SpannedToken]) -> Result<Form, LineFault>
    ensures { Gives (λ f. f) result (spec.end_form (tokens_in tokens.now)) }
{
    match tokens {
        [] => Ok(Form::End),
        [_, ..] => Err(LineFault::Text),
    }
}

fn names_in(alloc: Global, tokens: &[SpannedToken]) -> Result<NameList, LineFault>
    ensures { Gives (λ ns. ns) result (spec.names_in (tokens_in tokens.now)) }
{
    let mut names = Vec::new(alloc);
    for token in tokens {
        let name = name_in(token)?;
        names.push(name)?;
    }
    Ok(Items::from_vec(names))
}

// The form of a line that begins with this word.
#[tactic(auto, unfolding(crate::specs::FormReading::worded_form))]
fn worded_form(alloc: Global, word: Word, others: &[SpannedToken]) -> Result<Form, LineFault>
    ensures { Gives (λ f. f) result (spec.worded_form word (tokens_in others.now)) }
{
    match word {
        Word::Data => data_form(others),
        Word::Task => task_form(others),
        Word::Reads => {
            let names = names_in(alloc, others)?;
            Ok(Form::Reads(names))
        }
        Word::Writes => {
            let names = names_in(alloc, others)?;
            Ok(Form::Writes(names))
        }
        Word::End => end_form(others),
        Word::Print => print_form(others),
        _ => Err(LineFault::Text),
    }
}

/// The form of a line, by its first token and those behind it.
#[tactic(auto, unfolding(crate::specs::FormReading::form_behind))]
pub fn form_behind(alloc: Global, first: Token, others: &[SpannedToken]) -> Result<Form, LineFault>
    ensures { Gives (λ f. f) result (spec.form_behind first (tokens_in others.now)) }
{
    match first {
        Token::Word(word) => worded_form(alloc, word, others),
        _ => Err(LineFault::Text),
    }
}
