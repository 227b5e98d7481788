//! The elements of the lists of a side file, each by its form.

ghost use Rattle.serde_json.specs.View.{view};
ghost use Rattle.rr_ids.specs.Domains.{domain_of};
ghost use Rattle.side_form.specs.Placings.{domain_in};
ghost use Rattle.json_values.specs.Reads.{Reads};

use json_values::{FormError, FromJson, elements, name, pair, triple, whole};
use rr_ids::{Domain, Name};
use serde_json::Value;
use std::alloc::Global;
use std::marker::Model;

/// A named cell at its site, which goes by the name of a tile and of a kind, in its copy. Contracts see the record of
/// the fields.
#[derive(Drop)]
pub struct Placed {
    pub name: Name,
    pub tile: Name,
    pub kind: Name,
    pub domain: Domain,
}

impl Model for Placed {
    ghost use Rattle.records.specs.Side.{Placed as Record};
    ghost use Rattle.rr_ids.specs.Domains.{domain_of};

    ghost Value = { Record };

    ghost view = { λ p. record { name = p.name; tile = p.tile; kind = p.kind; domain = domain_of p.domain } };
}

// The domain that a number from 0 to 2 names.
fn domain(value: &Value) -> Result<Domain, FormError>
    ensures { Reads domain_of result (domain_in (view value.now)) }
{
    match whole(value, 2).ok_or(FormError::Unfit)? {
        0 => Ok(Domain::D0),
        1 => Ok(Domain::D1),
        _ => Ok(Domain::D2),
    }
}

impl FromJson for Placed {
    ghost use Rattle.side_form.specs.Placings.{placed_in};

    ghost value_in = { placed_in };

    #[tactic(auto, unfolding(side_form::specs::Placings::placed_in))]
    fn from_json(alloc: Global, value: &Value) -> Result<Placed, FormError> {
        match elements(value).ok_or(FormError::Unfit)? {
            [cell, tile, kind, copy] => Ok(Placed {
                name: name(alloc, cell)?,
                tile: name(alloc, tile)?,
                kind: name(alloc, kind)?,
                domain: domain(copy)?,
            }),
            _ => Err(FormError::Unfit),
        }
    }
}

/// Three names, of the copies 0, 1 and 2. Contracts see the record of the fields.
#[derive(Drop)]
pub struct Triple {
    pub first: Name,
    pub second: Name,
    pub third: Name,
}

impl Model for Triple {
    ghost use Rattle.records.specs.Side.{Triple as Record};

    ghost Value = { Record };

    ghost view = { λ t. record { first = t.first; second = t.second; third = t.third } };
}

impl FromJson for Triple {
    ghost use Rattle.side_form.specs.Placings.{names_in};

    ghost value_in = { names_in };

    #[tactic(auto, unfolding(side_form::specs::Placings::names_in))]
    fn from_json(alloc: Global, value: &Value) -> Result<Triple, FormError> {
        let (first, second, third) = triple(value).ok_or(FormError::Unfit)?;
        Ok(Triple {
            first: name(alloc, first)?,
            second: name(alloc, second)?,
            third: name(alloc, third)?,
        })
    }
}

/// A table of a slice, from number 0 on, that may read all three copies. Contracts see the record of the fields.
#[derive(Drop)]
pub struct Voter {
    pub slice: Name,
    pub table: u16,
}

impl Model for Voter {
    ghost use Rattle.records.specs.Side.{Voter as Record};

    ghost Value = { Record };

    ghost view = { λ v. record { slice = v.slice; table = v.table } };
}

impl FromJson for Voter {
    ghost use Rattle.side_form.specs.Placings.{voter_in};

    ghost value_in = { voter_in };

    #[tactic(auto, unfolding(side_form::specs::Placings::voter_in))]
    fn from_json(alloc: Global, value: &Value) -> Result<Voter, FormError> {
        let (slice, table) = pair(value).ok_or(FormError::Unfit)?;
        Ok(Voter {
            slice: name(alloc, slice)?,
            table: whole(table, 65_535).ok_or(FormError::Unfit)? as u16,
        })
    }
}
