//! Translates each client of a script to a plan of the service.
ghost use Rattle.std.specs.Prelude.{◌≡◌, ◌++◌, IfOk, drop, length, map, min, take};
ghost use Rattle.std.specs.List.{AllZip};
ghost use Rattle.script_client.specs.Performed.{block_from};
ghost use Rattle.script_threads.specs.Plans.{ArePlansOf, IsPlanOf, planned};

use journal_model::Block;
use journal_script::{ClientHandle, ClientTouch};
use std::alloc::{AllocError, Global};
use volume_service::{HandlePlan, Touch};

/// The plans of all clients, for this block size. It fails if memory runs out.
pub(crate) fn plans_of(
    alloc: Global,
    clients: &[Vec<ClientHandle>],
    block_size: usize,
) -> Result<Vec<Vec<HandlePlan>>, AllocError>
    ensures { IfOk result (λ plans. ArePlansOf block_size clients.now plans.items) }
{
    let mut plans = Vec::new(alloc);
    for client in clients {
        let plan = plan_of(alloc, client, block_size)?;
        plans.push(plan)?;
    }
    Ok(plans)
}

fn plan_of(
    alloc: Global,
    client: &[ClientHandle],
    block_size: usize,
) -> Result<Vec<HandlePlan>, AllocError>
    ensures { IfOk result (λ plan. AllZip (IsPlanOf block_size) client.now plan.items) }
{
    let mut plan = Vec::new(alloc);
    for handle in client {
        let planned = handle_plan(alloc, handle, block_size)?;
        plan.push(planned)?;
    }
    Ok(plan)
}

fn handle_plan(
    alloc: Global,
    handle: &ClientHandle,
    block_size: usize,
) -> Result<HandlePlan, AllocError>
    ensures { IfOk result (IsPlanOf block_size handle.now) }
{
    let touches = touches_of(alloc, &handle.touches, block_size)?;
    Ok(HandlePlan {
        credits: handle.credits,
        touches,
        waits: handle.waits,
    })
}

fn touches_of(
    alloc: Global,
    touches: &[ClientTouch],
    block_size: usize,
) -> Result<Vec<Touch>, AllocError>
    ensures { IfOk result (λ all. all.items ≡ map (planned block_size) touches.now) }
{
    let mut all = Vec::new(alloc);
    for touch in touches {
        let planned = touch_of(alloc, touch, block_size)?;
        all.push(planned)?;
    }
    Ok(all)
}

fn touch_of(alloc: Global, touch: &ClientTouch, block_size: usize) -> Result<Touch, AllocError>
    ensures { IfOk result (λ same. same ≡ planned block_size touch.now) }
{
    match touch {
        ClientTouch::Write(block, bytes) => {
            let bytes = block_of(alloc, block_size, bytes)?;
            Ok(Touch::Write(*block, bytes))
        }
        ClientTouch::Revoke(block) => Ok(Touch::Revoke(*block)),
    }
}

/// A block of `size` bytes: these bytes, at most one block of them, followed by zeros.
fn block_of(alloc: Global, size: usize, bytes: &[u8]) -> Result<Block, AllocError>
    ensures { IfOk result (λ block. block ≡ block_from size bytes.now) }
{
    let mut block = vec![in alloc; 0; size]?;
    copy_front(&mut block, bytes);
    Block::new(block)
}

/// Copies as many bytes to the front of `to` as both have.
fn copy_front(to: &mut [u8], from: &[u8])
    ensures { to.new ≡ take (min (length to.old) (length from.now)) from.now ++ drop (min (length to.old) (length from.now)) to.old }
{
    let n = to.len().min(from.len());
    to[..n].copy_from_slice(&from[..n]);
}
